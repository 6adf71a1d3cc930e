#![tactic(auto)]
// Reads a source from standard input and prints the answer, then a line for each record.
use std::io;

// Nothing past the 65,536th byte can matter: a source of so many is Long.
const MOST: usize = 65536;

// 4,096 records of seven numbers.
const NODES: usize = 28672;

const TEXT: usize = 16384;

fn main(rt: HostRuntime) -> io::Result<()> {
    let mut source = [0u8; MOST];
    let mut nodes = [0u16; NODES];
    let mut text = [0u8; TEXT];
    let n = input::fill(&mut rt.reader(), &mut source)?;
    print::reading(&mut io::writer(&rt), &source[..n], &mut nodes, &mut text)?;
    Ok(())
}

// Calls on standard input, one a line, and an answer line for each, with the house pile.
#![tactic(auto)]

use calls::planning::Planner;
use commands::buffer::LineBuffer;
use commands::responding::respond;
use house::pile::HOUSE_PILE;
use rule::narrowing::Rule;
use std::io;
use std::io::Read;

/// How many bytes are read at a time.
const CHUNK: usize = 4_096;

/// Answers each line that the bytes end, and keeps what they begin.
fn answer_lines<P: Rule + Drop>(
    rt: &HostRuntime,
    mut planner: Planner<P>,
    line: &mut LineBuffer,
    bytes: &[u8],
) -> io::Result<Planner<P>> {
    for byte in bytes {
        if line.take_byte(*byte) {
            let (next, reply) = respond(planner, line);
            planner = next;
            line.clear();
            println!(rt; "{reply}")?;
        }
    }
    Ok(planner)
}

fn main(rt: HostRuntime) -> io::Result<()> {
    let mut planner = Planner::new(HOUSE_PILE);
    let mut line = LineBuffer::new();
    let mut input = rt.stdin();
    // A count that no input reaches: every loop is proved to end, and input may not.
    for _ in 0..u64::MAX {
        // An array and no vector: what is read goes on at once, and read itself says how much it is.
        let mut chunk = [0u8; CHUNK];
        let count = input.read(&mut chunk)?;
        if count == 0 {
            break;
        }
        planner = answer_lines(&rt, planner, &mut line, &chunk[0..count])?;
    }
    if line.has_byte() {
        let (_, reply) = respond(planner, &line);
        println!(rt; "{reply}")?;
    }
    Ok(())
}

// The station: records of 192 bytes from standard input, a line for each to standard output. Whatever is at hand is read, every whole
// record of it is answered, and the lines are written before more is waited for.
#![tactic(auto)]

mod answering;
mod state;
mod turning;

use state::Station;

fn main(rt: HostRuntime) {
    let mut from = rt.stdin();
    let mut station = Station::zeros();
    station.begin();
    // Every loop has to be proved to end: so many bytes that no input has them. (No `for`: that bound also keeps the count from wrapping.)
    while station.count < 0x8000_0000_0000_0000 {
        let n = station.read_on(&mut from);
        let next = station.turn(n);
        let lines: &[u8] = &station.out;
        // Nothing is kept back: standard output has no buffer.
        if rt.write_all(&lines[..next]).is_err() {
            break;
        }
        if n == 0 {
            break;
        }
    }
}

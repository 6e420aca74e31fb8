// The program: the card on standard input, its listing on standard output.
#![tactic(auto)]

use printer::print_from;

fn main(rt: HostRuntime) {
    let mut window = [0u8; 5306];
    let mut out = [0u8; 65536];
    let _ = print_from(
        &mut rt.stdin(),
        &mut rt.stdout(),
        &mut rt.stderr(),
        &mut window,
        &mut out,
    );
}

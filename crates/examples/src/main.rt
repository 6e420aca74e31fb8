// The examples of document 000, and well-known domains: each argument names a card's file, which is printed as its name and its listing.
// A file that cannot be opened is named on standard error with the reason, and the others are printed all the same. The names are copied
// first: where memory runs out, or a name is not text, nothing is printed and the program ends with that error.
#![tactic(auto)]

use printer::print_from;
use std::fs::File;
use std::{env, io};

fn main(rt: HostRuntime) -> io::Result<()> {
    let mut window = [0u8; 5306];
    let mut out = [0u8; 65536];
    for name in env::args(&rt)?.skip(1) {
        match File::open(&rt, &name) {
            Ok(mut card) => {
                let _ = println!(rt; "{name}");
                let _ = print_from(
                    &mut card,
                    &mut rt.stdout(),
                    &mut rt.stderr(),
                    &mut window,
                    &mut out,
                );
            }
            Err(error) => {
                let _ = eprintln!(rt; "{name}: {error}");
            }
        }
    }
    Ok(())
}

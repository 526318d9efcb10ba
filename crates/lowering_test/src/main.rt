// Runs whole roots. Each line of standard input is NAME|JOB|TEXT|STATE|CALLS|NOTICES|RECORDS|ROOT|ROOT. Job, text and roots are in hexadecimal, or a star and
// how many zero bytes (a root may be missing); a text behind `>` is the one that the roots are given. STATE names bytes of the packed
// state that are replaced after opening. The others are the sizes of the three targets. A line is written for each: what each root was answered and
// whether it moved the state, how far each target is filled, and what all of it holds: each byte was EE. The opening's notices stand before the roots'.
#![tactic(auto)]

mod cases;
mod show;
mod states;

use files::CANNOT_WRITE;

fn main(rt: HostRuntime) {
    if cases::run(&rt).is_err() {
        let _ = rt.eprintln(CANNOT_WRITE);
    }
}

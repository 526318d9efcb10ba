// Tells for each line of standard input whether a character reference stands in it. A line has one byte to be replaced, then the text: the byte becomes `+` where the text
// has a reference, `-` where it has none, and all lines are written at once. An empty line stays.
#![tactic(auto)]

ghost use Rattle.std.specs.Prelude.{cond, ◌≡◌};
ghost use Rattle.references.specs.References.{has_reference};

use files::read_full;
use references::has_reference;

fn sign_of(text: &[u8]) -> u8
    ensures { result ≡ cond (has_reference text.now) 0x2b 0x2d }
{
    if has_reference(text) { b'+' } else { b'-' }
}

// Answers each line that ends.
fn answer_each(lines: &mut [u8]) {
    for line in lines.split_inclusive_mut(|b| *b == b'\n') {
        if let [sign, text @ .., b'\n'] = line {
            *sign = sign_of(text);
        }
    }
}

fn main(rt: HostRuntime) {
    let mut lines = [0u8; 65536];
    let n = read_full(&mut rt.reader(), &mut lines);
    answer_each(&mut lines[..n]);
    // a test whose output is not taken has failed by what is missing there
    let _ = Print::write_all(&rt, &lines[..n]);
}

// Lines of a text, words of a line, and the parts of a line around a byte.
ghost use Rattle.std.specs.Prelude.{◌≡◌, ◌<◌, eqb, not, length, option_map, IfSome};
ghost use Rattle.std.specs.Iterator.{YieldsFirstRef, item_count};
ghost use Rattle.std.specs.List.{prefix_len};
ghost use Rattle.text.specs.Bytes.{find};
ghost use Rattle.vectors.specs.Lines.{is_blank, line_from, word_from, inked, lines, words, front, rest};

use text::bytes::find_byte;

// Space, tab, and the CR of a line that ends with CR LF.
#[tactic(auto, unfolding(crate::specs::Lines::is_blank))]
pub fn is_blank(b: u8) -> bool
    ensures { result ≡ is_blank b }
{
    matches!(b, b' ' | b'\t' | b'\r')
}

// The first line without its LF, and what stands behind that.
#[tactic(auto, unfolding(crate::specs::Lines::line_from))]
pub fn next_line<'a>(s: &'a [u8]) -> Option<(&'a [u8], &'a [u8])>
    ensures value { option_map (λ p. (p.0.now, p.1.now)) result ≡ line_from s.now }
    ensures shorter { IfSome result (λ p. length p.1.now < length s.now) }
{
    if s.is_empty() {
        return None;
    }
    Some((before(s, b'\n'), after(s, b'\n')))
}

// How many blanks stand in front.
fn blanks(s: &[u8]) -> usize
    ensures { result ≡ prefix_len is_blank s.now }
{
    s.iter().take_while(|b| is_blank(**b)).count()
}

// How many bytes of a word stand in front.
fn ink(s: &[u8]) -> usize
    ensures { result ≡ prefix_len (λ b. not (is_blank b)) s.now }
{
    s.iter().take_while(|b| !is_blank(**b)).count()
}

// The text without the blanks in front.
#[tactic(auto, using(crate::proofs::Cutting::prefix_inside))]
pub(crate) fn inked<'a>(s: &'a [u8]) -> &'a [u8]
    ensures { result.now ≡ inked s.now }
{
    &s[blanks(s)..]
}

// The first word, and what stands behind it.
#[tactic(auto, using(crate::proofs::Cutting::prefix_inside), unfolding(crate::specs::Lines::word_from))]
pub fn next_word<'a>(s: &'a [u8]) -> Option<(&'a [u8], &'a [u8])>
    ensures value { option_map (λ p. (p.0.now, p.1.now)) result ≡ word_from s.now }
    ensures shorter { IfSome result (λ p. length p.1.now < length s.now) }
{
    let inked = inked(s);
    if inked.is_empty() {
        return None;
    }
    let end = ink(inked);
    Some((&inked[..end], &inked[end..]))
}

// The lines of a text, one after another.
#[derive(Drop)]
pub struct Lines<'a> {
    pub left: &'a [u8],
}

impl<'a> Iterator for Lines<'a> {
    type Item = &'a [u8];

    ghost next_gives = { YieldsFirstRef (λ s. lines s.left.now) };

    ghost remaining = { item_count (λ s. lines s.left.now) };

    #[tactic(auto, using(crate::proofs::Cutting::no_line, crate::proofs::Cutting::first_line))]
    fn next(&mut self) -> Option<&'a [u8]> {
        let (line, behind) = next_line(self.left)?;
        self.left = behind;
        Some(line)
    }
}

// The words of a line, one after another.
#[derive(Drop)]
pub struct Words<'a> {
    pub left: &'a [u8],
}

impl<'a> Iterator for Words<'a> {
    type Item = &'a [u8];

    ghost next_gives = { YieldsFirstRef (λ s. words s.left.now) };

    ghost remaining = { item_count (λ s. words s.left.now) };

    #[tactic(auto, using(crate::proofs::Cutting::no_word, crate::proofs::Cutting::first_word))]
    fn next(&mut self) -> Option<&'a [u8]> {
        let (word, behind) = next_word(self.left)?;
        self.left = behind;
        Some(word)
    }
}

// How many words there are.
#[tactic(auto, using(crate::proofs::Cutting::few_words))]
pub fn word_count(s: &[u8]) -> usize
    ensures { result ≡ length (words s.now) }
{
    Words { left: s }.count()
}

// What stands before the first b: all of s where there is none.
#[tactic(auto, using(crate::proofs::Cutting::found_front))]
pub fn before<'a>(s: &'a [u8], b: u8) -> &'a [u8]
    ensures { result.now ≡ front (find (eqb b) s.now) s.now }
{
    match find_byte(s, b) {
        Some(n) => &s[..n],
        None => s,
    }
}

// What stands behind the first b: nothing where there is none.
#[tactic(auto, using(crate::proofs::Cutting::found_inside))]
pub fn after<'a>(s: &'a [u8], b: u8) -> &'a [u8]
    ensures { result.now ≡ rest (find (eqb b) s.now) s.now }
{
    match find_byte(s, b) {
        Some(n) => &s[n + 1..],
        None => &s[s.len()..],
    }
}

// The lines of a text, by place.
ghost use Rattle.std.specs.Prelude.{◌≡◌, [], ◌<◌, length, get_or};
ghost use Rattle.text.specs.Grammar.{lines_of};
ghost use Rattle.text.specs.inside.Cursors.{breaks_at, line_length, next_line};

// CR LF stands at a place: a CR or an LF alone ends no line.
fn is_break(s: &[u8], i: usize) -> bool
    requires { i < length s.now }
    ensures { result ≡ breaks_at s.now i }
{
    s[i] == b'\r' && s.get(i + 1) == Some(&b'\n')
}

// Where the first line ends: at the first CR LF, or at the end.
pub fn line_end(s: &[u8]) -> usize
    ensures { result ≡ line_length s.now }
{
    for i in 0..s.len() {
        if is_break(s, i) {
            return i;
        }
    }
    s.len()
}

// Where the line after it begins.
pub fn next_line(s: &[u8]) -> usize
    ensures { result ≡ next_line s.now }
{
    let end = line_end(s);
    if end < s.len() { end + 2 } else { end }
}

// How many lines there are.
pub fn count_lines(text: &[u8]) -> usize
    ensures { result ≡ length (lines_of text.now) }
{
    let mut at = 0;
    let mut count = 0;
    while at < text.len() {
        at += next_line(&text[at..]);
        count += 1;
    }
    count
}

// Line k; empty past the last.
pub fn line(text: &[u8], k: usize) -> &[u8]
    ensures { result.now ≡ get_or (lines_of text.now) k [] }
{
    let mut at = 0;
    for _ in 0..k {
        at += next_line(&text[at..]);
    }
    let end = at + line_end(&text[at..]);
    &text[at..end]
}

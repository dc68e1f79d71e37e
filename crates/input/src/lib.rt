// The input side of a command-line program. No contract can say which bytes are read: this says how many there are, and that they are of one line.
#![tactic(auto)]

ghost use Rattle.std.specs.Prelude.{◌≤◌, length};
ghost use Rattle.io.specs.Counts.{IsPrefixLen};
ghost use Rattle.input.specs.Line.{OneLine};

const NEWLINE: u8 = b'\n';

// A line of the standard input, up to its newline, the end or a full buffer. It takes no byte of the next line, and asks for none.
// Its length is answered, and not the slice of it: then the clauses say what the lent buffer holds.
// By the kit's io, since std's reader is no plainer: each byte would be a Result to match.
#[tactic(auto, using(crate::proofs::Newlines::newlines))]
pub fn read_line(text: &mut [u8]) -> usize
    ensures prefix_len { IsPrefixLen result text.new }
    ensures fits { result ≤ length text.old }
    ensures line { OneLine result text.new }
{
    for len in 0..text.len() {
        let mut byte = [0u8; 1];
        if io::read_full(0, &mut byte) == 0 {
            return len;
        }
        text[len] = byte[0];
        if byte[0] == NEWLINE {
            return len + 1;
        }
    }
    text.len()
}

// The request lines of the program probe, and their words.
#![tactic(auto)]

ghost use Rattle.std.specs.Prelude.{◌≡◌, ◌-◌, ◌^◌, ◌≤◌, true, false, MatchOption, IfSome, [], min, not, eqb, length, take, drop, take_while};
ghost use Rattle.format.specs.Lists.{null};
ghost use Rattle.format.specs.Octets.{split_on};
ghost use Rattle.octets.specs.Octets.{line_end};
ghost use Rattle.buffer.specs.Writing.{Values};
ghost use Rattle.probe_request.specs.Request.{octets_of, number_of, said, marks_stored, of_words, edition_word, origin_word, catalogue_words, whole_words, run_words, by_letter, request_of};
ghost use Rattle.probe_request.specs.Words.{Inside, RunWithin, Within, text_at, code_of, edition_by, stored_by, asked, whole_asked, job_asked, run_asked, words_of, NextWord, Says, Spells, Described, description_words, Lists, Begins};

// The longest line that may be a request, without its LF.
const LONGEST: usize = 2200000;

// Where the octets that a word spells stand in a buffer.
#[derive(Clone, Copy)]
pub struct Span {
    pub from: usize,
    pub to: usize,
}

impl Span {
    // The octets that stand there.
    pub fn of(self, xs: &[u8]) -> &[u8]
        requires { Inside (length xs.now) self }
        ensures { result.now ≡ text_at xs.now self }
    {
        &xs[self.from..self.to]
    }
}

// A description: a stanza in a file, or a text that the DNS stores, with its edition.
#[derive(Clone, Copy)]
pub struct Description {
    pub text: Span,
    pub edition: Option<usize>,
}

// What a line lends of a catalogue: the octets of its entries, and the text of the names; a line that names none lends none.
#[derive(Clone, Copy)]
pub struct Catalogue {
    pub entries: Span,
    pub names: Span,
}

// A run of the fields of a description, and what is printed or read under it; only a request to read has an origin.
#[derive(Clone, Copy)]
pub struct Run {
    pub lent: Description,
    pub first: usize,
    pub many: usize,
    pub catalogue: Catalogue,
    pub origin: Span,
    pub octets: Span,
    pub room: usize,
}

// What a line asks for, by its letter.
#[derive(Clone, Copy)]
pub enum Request {
    Judge(Description),
    Print(Run),
    Read(Run),
    Job(Span),
}

// What follows a line's letter: a space; or C, where a catalogue may be named; or S, where the description is stored.
#[derive(Clone, Copy, PartialEq, Eq)]
enum Mark {
    Space,
    Catalogue,
    Stored,
}

// How many octets stand before the first space.
fn before_space(xs: &[u8]) -> usize
    ensures { result ≡ length (take_while (λ b. not (eqb b 32)) xs.now) }
{
    xs.iter().take_while(|b| **b != b' ').count()
}

// The next word, and what follows it; there is none at the end of the line.
fn next_word(rest: &[u8]) -> Option<(&[u8], &[u8])>
    ensures { MatchOption result (rest.now ≡ []) (λ r. NextWord rest.now r.0.now r.1.now) }
{
    let (_, words) = rest.split_first()?;
    Some(words.split_at(before_space(words)))
}

// Reads the octets that a word spells; '-' spells none.
fn word_octets(out: &mut [u8], at: usize, word: &[u8]) -> Option<usize>
    requires place { at ≤ 2 ^ 30 }
    requires short { length word.now ≤ 2 ^ 24 }
    ensures { Values out.old out.new at result (octets_of word.now) }
{
    match word {
        [] => None,
        [b'-'] => Some(at),
        [_] => None,
        // no octet has the number 100, so none is left out
        _ => base_group::lettered::<4, 8>(out, at, word, 100),
    }
}

// Reads the octets that the next word spells, and stores them from `at` on: where they end, and what follows the word.
fn next_octets<'a>(rest: &'a [u8], out: &mut [u8], at: usize) -> Option<(usize, &'a [u8])>
    requires short { length rest.now ≤ 2 ^ 24 }
    requires place { at ≤ 2 ^ 30 }
    ensures { MatchOption result (said octets_of (words_of rest.now) ≡ None) (λ r. Spells (said octets_of (words_of rest.now)) rest.now out.old out.new at r.0 r.1.now) }
{
    let (word, rest) = next_word(rest)?;
    let end = word_octets(out, at, word)?;
    Some((end, rest))
}

// The number, of at most 64 bits, that the digits of a word spell.
fn number(word: &[u8]) -> Option<usize>
    ensures { result ≡ number_of word.now }
{
    if word.is_empty() {
        return None;
    }
    let mut value: usize = 0;
    for b in word {
        if !b.is_ascii_digit() {
            return None;
        }
        value = value.checked_mul(10)?.checked_add(usize::from(*b - b'0'))?;
    }
    Some(value)
}

// Reads the number that the next word spells.
fn next_number(rest: &[u8]) -> Option<(usize, &[u8])>
    ensures { MatchOption result (said number_of (words_of rest.now) ≡ None) (λ r. Says (said number_of (words_of rest.now)) rest.now r.0 r.1.now) }
{
    let (word, rest) = next_word(rest)?;
    Some((number(word)?, rest))
}

// Reads the edition, which only the line of a stored description names.
fn next_edition(rest: &[u8], mark: Mark) -> Option<(Option<usize>, &[u8])>
    ensures reads { MatchOption result (edition_word (code_of mark) (words_of rest.now) ≡ None) (λ r. Says (edition_word (code_of mark) (words_of rest.now)) rest.now (edition_by r.0) r.1.now) }
    ensures stored { IfSome result (λ r. stored_by r.0 ≡ marks_stored (code_of mark)) }
{
    if mark == Mark::Stored {
        let (edition, rest) = next_number(rest)?;
        return Some((Some(edition), rest));
    }
    Some((None, rest))
}

// Reads a description, and its edition if it is stored; its octets stand at the start of the buffer.
fn next_description<'a>(
    rest: &'a [u8],
    mark: Mark,
    octets: &mut [u8],
) -> Option<(Description, &'a [u8])>
    requires { length rest.now ≤ 2200000 }
    ensures { MatchOption result (description_words (code_of mark) (words_of rest.now) ≡ None) (λ r. Described (code_of mark) rest.now octets.old octets.new r.0 r.1.now) }
{
    let (to, rest) = next_octets(rest, octets, 0)?;
    let (edition, rest) = next_edition(rest, mark)?;
    let text = Span { from: 0, to };
    Some((Description { text, edition }, rest))
}

// Reads a catalogue, if the line may name one: whole entries, of 8 octets each, and the text of the names.
fn next_catalogue<'a>(
    rest: &'a [u8],
    mark: Mark,
    out: &mut [u8],
    at: usize,
) -> Option<(Catalogue, &'a [u8])>
    requires short { length rest.now ≤ 2 ^ 22 }
    requires place { at ≤ 2 ^ 22 }
    ensures { MatchOption result (catalogue_words (code_of mark) (words_of rest.now) ≡ None) (λ r. Lists (code_of mark) rest.now out.old out.new at r.0 r.1.now) }
{
    if mark == Mark::Catalogue {
        let (middle, rest) = next_octets(rest, out, at)?;
        let (to, rest) = next_octets(rest, out, middle)?;
        if (middle - at) % 8 != 0 {
            return None;
        }
        let entries = Span {
            from: at,
            to: middle,
        };
        let names = Span { from: middle, to };
        return Some((Catalogue { entries, names }, rest));
    }
    let none = Span { from: at, to: at };
    let catalogue = Catalogue {
        entries: none,
        names: none,
    };
    Some((catalogue, rest))
}

// Reads the origin's octets, which only a request to read has.
fn next_origin<'a>(
    rest: &'a [u8],
    letter: u8,
    out: &mut [u8],
    at: usize,
) -> Option<(usize, &'a [u8])>
    requires short { length rest.now ≤ 2 ^ 24 }
    requires place { at ≤ 2 ^ 30 }
    ensures { MatchOption result (origin_word letter (words_of rest.now) ≡ None) (λ r. Spells (origin_word letter (words_of rest.now)) rest.now out.old out.new at r.0 r.1.now) }
{
    if letter == b'R' {
        return next_octets(rest, out, at);
    }
    Some((at, rest))
}

// Refuses words after the last one of a request.
fn no_more(rest: &[u8]) -> Option<()>
    ensures { MatchOption result (null (words_of rest.now) ≡ false) (λ _. null (words_of rest.now) ≡ true) }
{
    if rest.is_empty() { Some(()) } else { None }
}

// Reads a request to judge, after its first word.
fn read_whole(rest: &[u8], mark: Mark, octets: &mut [u8]) -> Option<Description>
    requires short { length rest.now ≤ 2200000 }
    requires room { 1100000 ≤ length octets.old }
    ensures within { IfSome result (λ d. Inside (length octets.old) d.text) }
    ensures request { whole_asked 74 result octets.new ≡ whole_words (code_of mark) 74 (words_of rest.now) }
{
    let (description, rest) = next_description(rest, mark, octets)?;
    no_more(rest)?;
    Some(description)
}

// Reads a job, after its first word.
fn read_job(rest: &[u8], octets: &mut [u8]) -> Option<Span>
    requires short { length rest.now ≤ 2200000 }
    requires room { 1100000 ≤ length octets.old }
    ensures within { IfSome result (λ s. Inside (length octets.old) s) }
    ensures request { job_asked result octets.new ≡ whole_words 32 87 (words_of rest.now) }
{
    let (to, rest) = next_octets(rest, octets, 0)?;
    no_more(rest)?;
    Some(Span { from: 0, to })
}

// Reads a request to print or to read, after its first word.
fn read_run(rest: &[u8], mark: Mark, octets: &mut [u8], letter: u8) -> Option<Run>
    requires short { length rest.now ≤ 2200000 }
    requires room { 1100000 ≤ length octets.old }
    ensures within { IfSome result (λ r. RunWithin (length octets.old) r) }
    ensures request { run_asked letter result octets.new ≡ run_words (code_of mark) letter (words_of rest.now) }
{
    let (lent, rest) = next_description(rest, mark, octets)?;
    let (first, rest) = next_number(rest)?;
    let (many, rest) = next_number(rest)?;
    let (catalogue, rest) = next_catalogue(rest, mark, octets, lent.text.to)?;
    let start = catalogue.names.to;
    let (middle, rest) = next_origin(rest, letter, octets, start)?;
    let (to, rest) = next_octets(rest, octets, middle)?;
    let (room, rest) = next_number(rest)?;
    no_more(rest)?;
    Some(Run {
        lent,
        first,
        many,
        catalogue,
        origin: Span {
            from: start,
            to: middle,
        },
        octets: Span { from: middle, to },
        room,
    })
}

// Reads a request by its letter and the mark after it.
fn read_by(letter: u8, mark: Mark, rest: &[u8], octets: &mut [u8]) -> Option<Request>
    requires short { length rest.now ≤ 2200000 }
    requires room { 1100000 ≤ length octets.old }
    ensures within { IfSome result (λ r. Within (length octets.old) r) }
    ensures request { asked result octets.new ≡ by_letter (code_of mark) letter (words_of rest.now) }
{
    match letter {
        b'J' => Some(Request::Judge(read_whole(rest, mark, octets)?)),
        b'P' => Some(Request::Print(read_run(rest, mark, octets, letter)?)),
        b'R' => Some(Request::Read(read_run(rest, mark, octets, letter)?)),
        b'W' if mark == Mark::Space => Some(Request::Job(read_job(rest, octets)?)),
        _ => None,
    }
}

// The letter of a line, the mark after it, and what follows them from the space on.
fn first_word(line: &[u8]) -> Option<(u8, Mark, &[u8])>
    ensures { MatchOption result (of_words (split_on 32 line.now) ≡ None) (λ r. Begins line.now r.0 r.1 r.2.now) }
{
    let (letter, rest) = line.split_first()?;
    let (mark, later) = rest.split_first()?;
    if *mark == b' ' {
        return Some((*letter, Mark::Space, rest));
    }
    if !later.starts_with(b" ") {
        return None;
    }
    match *mark {
        b'C' => Some((*letter, Mark::Catalogue, later)),
        b'S' => Some((*letter, Mark::Stored, later)),
        _ => None,
    }
}

// Reads what a line, without its LF, asks for, if it is a request. The octets of its words are stored one after another.
#[tactic(auto, unfolding(crate::specs::Request::request_of))]
pub fn read(line: &[u8], octets: &mut [u8]) -> Option<Request>
    requires { 1100000 ≤ length octets.old }
    ensures within { IfSome result (λ r. Within (length octets.old) r) }
    ensures request { asked result octets.new ≡ request_of line.now }
{
    if line.len() > LONGEST {
        return None;
    }
    let (letter, mark, rest) = first_word(line)?;
    read_by(letter, mark, rest, octets)
}

// The place of the first LF from i on, or the length if there is none.
pub fn line_end(xs: &[u8], i: usize) -> usize
    requires { i ≤ length xs.now }
    ensures from { i ≤ result }
    ensures within { result ≤ length xs.now }
    ensures end { result ≡ line_end xs.now i }
{
    octets::line_end(xs, i)
}

// Moves the octets from `start` on, which begin a line, to the front, and returns how many are kept: of a line that is too long
// to be a request, one octet more than a request may have. If they are at the front already, nothing is moved, so that a long
// line, which comes in many pieces, is not copied again with each piece.
pub fn keep(buf: &mut [u8], start: usize) -> usize
    requires { start ≤ length buf.old }
    ensures count { result ≡ min (length buf.old - start) 2200001 }
    ensures within { result ≤ length buf.old }
    ensures few { result ≤ 2200001 }
    ensures kept { take result buf.new ≡ take result (drop start buf.old) }
{
    let n = (buf.len() - start).min(LONGEST + 1);
    if start > 0 {
        buf.copy_within(start..start + n, 0);
    }
    n
}

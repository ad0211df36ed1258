// Two posts' books side by side: malformed records, where their lists differ, and the clock offset.

#![tactic(auto)]

pub mod numbers;
pub mod words;

ghost use Rattle.std.specs.Prelude.{◌≡◌, ℕ, true, false, ◌+◌, ◌*◌, ◌/◌, ◌≤◌, ◌<◌, ◌∷◌, [], length, MatchOption};
ghost use Rattle.registers.specs.Books.{record_length, sent_mark, received_mark, entry_at, entry_well_formed, well_at};
ghost use Rattle.registers.specs.Books.{first_malformed, some_malformed, same_message, comparison};
ghost use Rattle.registers.specs.Answers.{book_number};
ghost use Rattle.registers.specs.Walk.{travel, no_travel, with_message, going_from, walked, with_sender, lower_end, offset_within};

pub const RECORD_LENGTH: usize = 8;

pub const LAST_SECOND: u32 = 86399;

pub const LONGEST_TRAVEL: u64 = 60;

pub const LARGEST_OFFSET: u64 = 120;

// Above every 32-bit second, so that a difference of two with it is never below 0.
const WIDE: u64 = 4294967296;

// The books. A pair of lists goes by the book that sent: what it sent, beside what the other received.
#[derive(Clone, Copy, Debug, PartialEq, Eq)]
pub enum Book {
    First,
    Second,
}

// What an answer tells a book by: its name, or a number alone, of which any is taken. The first book's is 0 and the second's 1.
pub trait HasNumber: Copy {
    ghost number: { Self → ℕ };

    fn number(self) -> u8
        ensures { result ≡ number self };
}

impl HasNumber for Book {
    ghost number = { book_number };

    fn number(self) -> u8 {
        self as u8
    }
}

impl HasNumber for u8 {
    ghost number = { λ number. number };

    fn number(self) -> u8 {
        self // whatever it is
    }
}

// What a record says of its message, as the byte holds it.
#[derive(Clone, Copy, Debug, PartialEq, Eq)]
pub enum Direction {
    Sent = 0,
    Received = 1,
}

// Why two books do not match: where their lists differ, or the first malformed record. A book goes by its name, or by a number.
#[derive(Clone, Copy, Debug, PartialEq, Eq)]
pub enum Mismatch<B> {
    Differs { sent_by: B, index: usize },
    Malformed { book: B, index: usize },
}

// What two books say. Those that match have a clock offset, given with 120 added, from 0 to 240, or none.
pub type Comparison = Result<Option<u8>, Mismatch<Book>>;

// A record's bytes as they are read, before they are tested: a field can hold what no well-formed record has.
#[derive(Clone, Copy)]
pub struct Entry {
    pub announcement: u8,
    pub direction: u8,
    pub track: u8,
    pub zero: u8,
    pub second: u32,
}

// The least and the most travel of the messages of two lists.
#[derive(Clone, Copy)]
struct TravelRange {
    least: u64,
    most: u64,
}

impl TravelRange {
    // Of no message yet: the least is above all and the most below all.
    fn new() -> TravelRange
        ensures { result ≡ no_travel }
    {
        TravelRange {
            least: WIDE + WIDE,
            most: 0,
        }
    }

    // With a message more.
    fn with_message(self, travel: u64) -> TravelRange
        ensures { result ≡ with_message self travel }
    {
        TravelRange {
            least: self.least.min(travel),
            most: self.most.max(travel),
        }
    }
}

// Record i.
#[tactic(auto, unfolding(crate::specs::Books::entry_at))]
fn entry_at(book: &[u8], i: usize) -> Entry
    requires { i * record_length + record_length ≤ length book.now }
    ensures { result ≡ entry_at book.now i }
{
    let start = i * RECORD_LENGTH;
    Entry {
        announcement: book[start],
        direction: book[start + 1],
        track: book[start + 2],
        zero: book[start + 3],
        second: layout::le32_at(book, start + 4),
    }
}

// Whether a record is well formed after one of an earlier second.
#[tactic(auto, unfolding(crate::specs::Books::entry_well_formed, section::specs::Bytes::within))]
fn entry_well_formed(earlier: u32, e: Entry) -> bool
    ensures { result ≡ entry_well_formed earlier e }
{
    (1..=4).contains(&e.announcement)
        && e.direction <= Direction::Received as u8
        && e.track <= 1
        && e.zero == 0
        && e.second <= LAST_SECOND
        && earlier <= e.second
}

// Whether record i is whole, and well formed after the record before it.
#[tactic(auto, unfolding(crate::specs::Books::well_at, crate::specs::Books::earlier_at))]
fn is_well_formed(book: &[u8], i: usize) -> bool
    ensures { result ≡ well_at book.now i }
{
    if book.len() / RECORD_LENGTH <= i {
        return false;
    }
    let earlier = if i == 0 {
        0
    } else {
        entry_at(book, i - 1).second
    };
    entry_well_formed(earlier, entry_at(book, i))
}

// The index of the first malformed record. An incomplete record follows the whole ones, and is malformed.
fn first_malformed(book: &[u8]) -> Option<usize>
    ensures { MatchOption result (some_malformed book.now ≡ false) (λ i. (some_malformed book.now ≡ true) × (i ≡ first_malformed book.now)) }
{
    (0..layout::step_count(book)).find(|&i| !is_well_formed(book, i))
}

// Whether two records say one message: its announcement and its track.
#[tactic(auto, unfolding(crate::specs::Books::same_message))]
fn same_message(a: Entry, b: Entry) -> bool
    ensures { result ≡ same_message a b }
{
    (a.announcement, a.track) == (b.announcement, b.track)
}

// The first received record from record i on.
fn next_received(book: &[u8], i: usize) -> Option<usize>
    ensures { MatchOption result (going_from received_mark book.now i ≡ []) (λ r. (r < length book.now / record_length) × (going_from received_mark book.now i ≡ entry_at book.now r ∷ going_from received_mark book.now (r + 1))) }
{
    (i..book.len() / RECORD_LENGTH).find(
        |&r|
            requires { r * record_length + record_length ≤ length book.now }
        { entry_at(book, r).direction == Direction::Received as u8 },
    )
}

// The seconds from a sending to its arrival, each by its own clock, with WIDE added.
#[tactic(auto, unfolding(crate::specs::Walk::travel))]
fn travel_of(a: Entry, b: Entry) -> u64
    ensures { result ≡ travel a b }
{
    u64::from(b.second) + WIDE - u64::from(a.second)
}

// What one book sent beside what the other received: the travel of the messages, or where the lists differ.
#[tactic(auto, using(crate::proofs::Lists::going_other, crate::proofs::Walks::both_end, crate::proofs::Walks::sender_ends, crate::proofs::Walks::receiver_ends, crate::proofs::Walks::unlike, crate::proofs::Walks::alike))]
fn walk(sent_by: Book, sender: &[u8], receiver: &[u8]) -> Result<TravelRange, Mismatch<Book>>
    ensures { result ≡ with_sender sent_by (walked 0 no_travel (going_from sent_mark sender.now 0) (going_from received_mark receiver.now 0)) }
{
    let mut travel = TravelRange::new();
    let mut index = 0; // counted by hand: a chain with `enumerate` would need an invariant over the records that its filter dropped
    let mut j = 0;
    for i in 0..sender.len() / RECORD_LENGTH {
        let a = entry_at(sender, i);
        if a.direction != Direction::Sent as u8 {
            continue;
        }
        let Some(r) = next_received(receiver, j) else {
            return Err(Mismatch::Differs { sent_by, index }); // the received list ends first
        };
        let b = entry_at(receiver, r);
        if !same_message(a, b) {
            return Err(Mismatch::Differs { sent_by, index }); // another message
        }
        travel = travel.with_message(travel_of(a, b));
        index += 1;
        j = r + 1;
    }
    match next_received(receiver, j) {
        Some(_) => Err(Mismatch::Differs { sent_by, index }), // the sent list ends first
        None => Ok(travel),
    }
}

// The lower end of the offsets that the least travel of what the first book sent and the most of what the second sent allow.
#[tactic(auto, unfolding(crate::specs::Walk::lower_end))]
fn lower_end(one: TravelRange, other: TravelRange) -> u64
    ensures { result ≡ lower_end one other }
{
    let by_first = (WIDE + LARGEST_OFFSET).saturating_sub(one.least);
    let by_second = other
        .most
        .saturating_sub(WIDE + LONGEST_TRAVEL - LARGEST_OFFSET);
    by_first.max(by_second)
}

// The smallest offset for the travel of what the first book sent, and of what the second sent.
#[tactic(auto, unfolding(crate::specs::Walk::offset_within, crate::specs::Walk::none_left))]
fn offset_within(one: TravelRange, other: TravelRange) -> Option<u8>
    ensures { result ≡ offset_within one other }
{
    let k = lower_end(one, other);
    if LARGEST_OFFSET + LARGEST_OFFSET < k {
        return None;
    }
    if WIDE + LARGEST_OFFSET + LONGEST_TRAVEL - k < one.most {
        return None;
    }
    if other.least < k + WIDE - LARGEST_OFFSET {
        return None;
    }
    Some(k as u8)
}

// Two posts' books side by side.
#[tactic(auto, using(crate::proofs::Answer::malformed_first, crate::proofs::Answer::malformed_second, crate::proofs::Answer::differs_first, crate::proofs::Answer::differs_second, crate::proofs::Answer::matches))]
pub fn compare(first: &[u8], second: &[u8]) -> Comparison
    ensures { result ≡ comparison first.now second.now }
{
    if let Some(index) = first_malformed(first) {
        return Err(Mismatch::Malformed {
            book: Book::First,
            index,
        });
    }
    if let Some(index) = first_malformed(second) {
        return Err(Mismatch::Malformed {
            book: Book::Second,
            index,
        });
    }
    let one = walk(Book::First, first, second)?;
    let other = walk(Book::Second, second, first)?;
    Ok(offset_within(one, other))
}

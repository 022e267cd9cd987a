//! A talk with the program: what stations ask one after the other, and what each is told.

ghost use Rattle.std.specs.Prelude.{◌<◌};

use crate::program::{NOTHING, expect_left, init, run};
use std::alloc::Global;
use std::process::Abort;

/// What a station asks, and what it is told. In both an entry of a list may stand for several: `["A<1-3>"]` is
/// `["A0000000001","A0000000002","A0000000003"]`.
pub(crate) type Row<'a> = (&'a str, &'a str, &'a str);

/// The reply to most deeds.
pub(crate) const OK: &str = r#"{"ok":true}"#;

/// No batch has the name.
pub(crate) const UNKNOWN_BATCH: &str = r#"{"ok":false,"rule":"UnknownBatch"}"#;

/// The batch is planned.
pub(crate) const NOT_STARTED: &str = r#"{"ok":false,"rule":"BatchNotStarted"}"#;

/// The batch is closed.
pub(crate) const CLOSED: &str = r#"{"ok":false,"rule":"BatchClosed"}"#;

/// The station's role doesn't do such deeds.
pub(crate) const ROLE: &str = r#"{"ok":false,"rule":"RoleForbids"}"#;

/// The unit is sealed.
pub(crate) const SEALED: &str = r#"{"ok":false,"rule":"UnitSealed"}"#;

/// Nothing is named.
pub(crate) const EMPTY_LIST: &str = r#"{"most":1000,"ok":false,"rule":"CountOutOfRange"}"#;

/// The count is 0 or above 10,000.
pub(crate) const BAD_COUNT: &str = r#"{"most":10000,"ok":false,"rule":"CountOutOfRange"}"#;

/// Lines, and what they are told.
#[derive(Drop)]
pub(crate) struct Talk {
    pub(crate) lines: String,
    pub(crate) answers: String,
    /// The last numbers of the four stations.
    numbers: [u64; 4],
}

impl Talk {
    pub(crate) fn new(alloc: Global) -> Self {
        Talk {
            lines: String::new(alloc),
            answers: String::new(alloc),
            numbers: [0; 4],
        }
    }

    /// The station asks with its next number.
    pub(crate) fn ask(&mut self, rt: &impl Abort, alloc: Global, station: &str, deed: &str) {
        let place = place_of(station);
        let number = self.numbers[place].saturating_add(1);
        self.numbers[place] = number;
        let deed = written_out(rt, alloc, deed);
        let line = format!(in alloc;
            "{{\"station\":\"{station}\",\"number\":{number},\"deed\":{deed}}}\n"
        ).expect(rt, "memory is ample");
        self.lines
            .push_str(line.as_str())
            .expect(rt, "memory is ample");
    }

    /// It is told this.
    pub(crate) fn tell(&mut self, rt: &impl Abort, alloc: Global, answer: &str) {
        let answer = written_out(rt, alloc, answer);
        self.answers
            .push_str(answer.as_str())
            .expect(rt, "memory is ample");
        self.answers.push('\n').expect(rt, "memory is ample");
    }

    /// Each station asks in its turn, and is told what stands there.
    pub(crate) fn go_on(&mut self, rt: &impl Abort, alloc: Global, rows: &[Row]) {
        for (station, deed, answer) in rows {
            self.ask(rt, alloc, station, deed);
            self.tell(rt, alloc, answer);
        }
    }
}

/// Where the number of a station of the example site stands.
fn place_of(station: &str) -> usize
    ensures { result < 4 }
{
    match station {
        "P1" => 0,
        "L1" => 1,
        "L2" => 2,
        _ => 3,
    }
}

/// On a new site and with these random words each is told what stands there. Then all of it is read back from the
/// journal, and told again.
pub(crate) fn expect_talk(
    rt: &impl Abort,
    alloc: Global,
    site: &str,
    words: &[u64],
    parts: &[&[Row]],
) {
    let mut talk = Talk::new(alloc);
    for rows in parts {
        talk.go_on(rt, alloc, rows);
    }
    let journal = init(rt, alloc, site.as_bytes(), b"", NOTHING).disk;
    let first = run(rt, alloc, &journal, talk.lines.as_bytes(), words);
    expect_left(rt, &first, 0, talk.answers.as_bytes());
    let again = run(rt, alloc, &first.disk, talk.lines.as_bytes(), &[]);
    expect_left(rt, &again, 0, talk.answers.as_bytes());
    assert!(rt; again.disk == first.disk);
}

/// The words from the first to the last: of a product with digits they stand for themselves.
pub(crate) fn numbered(rt: &impl Abort, alloc: Global, first: u64, last: u64) -> Vec<u64> {
    let mut words = Vec::new(alloc);
    for word in first..=last {
        words.push(word).expect(rt, "memory is ample");
    }
    words
}

/// The text with its entry that stands for several written out.
pub(crate) fn written_out(rt: &impl Abort, alloc: Global, text: &str) -> String {
    let Some((front, range, rest)) = range_in(text) else {
        return String::from_str(alloc, text).expect(rt, "memory is ample");
    };
    let (front, before) = front.rsplit_once('[').expect(rt, "a list");
    let (after, rest) = rest.split_once(']').expect(rt, "a list");
    let mut whole = String::from_str(alloc, front).expect(rt, "memory is ample");
    whole.push('[').expect(rt, "memory is ample");
    push_entries(rt, alloc, &mut whole, before, range, after);
    whole.push(']').expect(rt, "memory is ample");
    whole.push_str(rest).expect(rt, "memory is ample");
    whole
}

/// What stands before a range, the range and what comes after it.
fn range_in(text: &str) -> Option<(&str, &str, &str)> {
    let (front, rest) = text.split_once('<')?;
    let (range, rest) = rest.split_once('>')?;
    Some((front, range, rest))
}

/// Puts the entries last, one for each number of the range.
fn push_entries(
    rt: &impl Abort,
    alloc: Global,
    whole: &mut String,
    before: &str,
    range: &str,
    after: &str,
) {
    let (first, last) = range.split_once('-').expect(rt, "a range");
    let first: u64 = first.parse().expect(rt, "a number");
    let last: u64 = last.parse().expect(rt, "a number");
    for number in first..=last {
        let comma = if number == first { "" } else { "," };
        let entry = format!(in alloc; "{comma}{before}{number:010}{after}").expect(
            rt,
            "memory is ample",
        );
        whole.push_str(entry.as_str()).expect(rt, "memory is ample");
    }
}

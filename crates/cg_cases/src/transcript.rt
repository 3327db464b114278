//! Follows a transcript line by line, and reports what differs.

use crate::bench::Bench;
use crate::content::add_line;
use crate::series::{Series, with_number};
use crate::source::{Alteration, Part, Question, ends_too_early, verdict};
use std::alloc::{AllocError, Global};

/// What the next content lines describe.
#[derive(Drop)]
enum Purpose {
    /// Nothing: content lines aren't allowed here.
    None,
    /// The bytes of a file.
    File(String),
    /// What the last call put.
    Report,
    /// What is held under a name after the last call.
    Held(String),
    /// The notes of the last call.
    Notes,
    /// The progress of the last call.
    Progress,
}

/// How much of some bytes the content lines describe.
#[derive(Clone, Copy)]
enum Reach {
    /// All of the bytes.
    Whole,
    /// The beginning of the bytes.
    Beginning,
}

/// A transcript that is being followed.
#[derive(Drop)]
pub(crate) struct Transcript {
    title: String,
    bench: Bench,
    case: Option<String>,
    /// The series whose lines are being read.
    series: Option<Series>,
    purpose: Purpose,
    /// The bytes that the content lines described so far.
    bytes: Vec<u8>,
    /// The status of the last call, until the line that states the expected status.
    open_status: Option<u8>,
    /// Whether a call was made in this case.
    calls: bool,
    /// Whether a difference was found in this case.
    differs: bool,
    cases: u64,
    differing: u64,
    /// The text to print.
    text: String,
}

impl Transcript {
    /// Returns a transcript named `title`, of which no line has been followed.
    pub(crate) fn new(alloc: Global, title: &str) -> Result<Transcript, AllocError> {
        Ok(Transcript {
            title: String::from_str(alloc, title)?,
            bench: Bench::new(alloc),
            case: None,
            series: None,
            purpose: Purpose::None,
            bytes: Vec::new(alloc),
            open_status: None,
            calls: false,
            differs: false,
            cases: 0,
            differing: 0,
            text: String::new(alloc),
        })
    }

    /// Follows `line`. A line of a series is kept, and followed where the series ends.
    pub(crate) fn follow(&mut self, alloc: Global, line: &str) -> Result<(), AllocError> {
        if line.is_empty() || line.starts_with('#') {
            return Ok(());
        }
        if let Some(title) = line.strip_prefix("case ") {
            self.end_series(alloc)?;
            self.series = Series::begun(alloc, title)?;
            if self.series.is_some() {
                return Ok(());
            }
        }
        match &mut self.series {
            Some(series) => series.add(alloc, line),
            None => self.follow_line(alloc, line),
        }
    }

    /// Follows the cases of the series, where there is one.
    fn end_series(&mut self, alloc: Global) -> Result<(), AllocError> {
        let Some(series) = self.series.take() else {
            return Ok(());
        };
        for number in series.first..=series.last {
            self.follow_case(alloc, &series, number)?;
        }
        Ok(())
    }

    /// Follows the case of `series` with `number`.
    fn follow_case(
        &mut self,
        alloc: Global,
        series: &Series,
        number: u32,
    ) -> Result<(), AllocError> {
        let name = series.name.as_str();
        let title = format!(in alloc; "{name} {number}")?;
        self.settle(alloc, Reach::Whole)?;
        self.begin(alloc, title.as_str())?;
        for line in &series.lines {
            let line = with_number(alloc, line.as_str(), number)?;
            self.follow_line(alloc, line.as_str())?;
        }
        Ok(())
    }

    /// Follows `line`, a line of a case.
    fn follow_line(&mut self, alloc: Global, line: &str) -> Result<(), AllocError> {
        if line == "any" {
            return self.settle(alloc, Reach::Beginning);
        }
        if self.has_content() && add_line(alloc, &mut self.bytes, line)? {
            return Ok(());
        }
        self.settle(alloc, Reach::Whole)?;
        let (word, rest) = line.split_once(' ').unwrap_or((line, ""));
        match word {
            "case" => self.begin(alloc, rest),
            "file" => self.expect(alloc, Purpose::File(String::from_str(alloc, rest)?)),
            "cut" | "flip" => self.alter(alloc, word, rest),
            "fail-store" => self.fail_store(alloc, rest),
            "fail-sink" => self.fail_sink(alloc, rest),
            "run" => self.run(alloc, rest),
            "status" => self.judge_status(alloc, rest),
            "held" => self.expect(alloc, Purpose::Held(String::from_str(alloc, rest)?)),
            "missing" => self.judge_missing(alloc, rest),
            "notes" => self.expect(alloc, Purpose::Notes),
            "progress" => self.expect(alloc, Purpose::Progress),
            "same" => self.judge_same(alloc, rest),
            "c" => self.judge_source(alloc, Question::Verdict, rest),
            "hint" => self.judge_source(alloc, Question::Hint, rest),
            "cuts" => self.judge_cuts(alloc, rest),
            "doubled" => self.judge_altered(alloc, Alteration::Doubled, rest),
            "blank" => self.judge_altered(alloc, Alteration::Blank, rest),
            _ => self.differ(alloc, "no such line", line),
        }
    }

    /// Ends the transcript, and returns the text to print.
    pub(crate) fn finish(mut self, alloc: Global) -> Result<String, AllocError> {
        self.end_series(alloc)?;
        self.settle(alloc, Reach::Whole)?;
        self.end_case(alloc)?;
        let title = self.title.as_str();
        let cases = self.cases;
        let differing = self.differing;
        let line = format!(in alloc; "{title}: {cases} cases, {differing} differ\n")?;
        self.text.push_str(line.as_str())?;
        Ok(self.text)
    }

    /// Checks whether content lines are allowed here.
    fn has_content(&self) -> bool {
        !matches!(self.purpose, Purpose::None)
    }

    /// Sets `purpose` as what the next content lines describe.
    fn expect(&mut self, alloc: Global, purpose: Purpose) -> Result<(), AllocError> {
        self.purpose = purpose;
        self.bytes = Vec::new(alloc);
        Ok(())
    }

    /// Uses the content lines for their purpose. `reach` states how much of the bytes they describe.
    fn settle(&mut self, alloc: Global, reach: Reach) -> Result<(), AllocError> {
        let purpose = std::mem::replace(&mut self.purpose, Purpose::None);
        let bytes = std::mem::replace(&mut self.bytes, Vec::new(alloc));
        match purpose {
            Purpose::None => Ok(()),
            Purpose::File(name) => if self.case.is_some() {
                self.bench.hold(alloc, name.as_str(), bytes.as_slice())
            } else {
                self.bench.share(alloc, name.as_str(), bytes.as_slice())
            },
            Purpose::Report => self.judge_report(alloc, bytes.as_slice(), reach),
            Purpose::Held(name) => self.judge_held(alloc, name.as_str(), bytes.as_slice(), reach),
            Purpose::Notes => self.judge_notes(alloc, bytes.as_slice(), reach),
            Purpose::Progress => self.judge_progress(alloc, bytes.as_slice(), reach),
        }
    }

    /// Begins the case `name`.
    fn begin(&mut self, alloc: Global, name: &str) -> Result<(), AllocError> {
        self.end_case(alloc)?;
        self.case = Some(String::from_str(alloc, name)?);
        self.bench.clear(alloc)
    }

    /// Ends the current case and counts it, if there is one.
    fn end_case(&mut self, alloc: Global) -> Result<(), AllocError> {
        self.end_call(alloc)?;
        if self.case.is_some() {
            self.cases = self.cases.saturating_add(1);
            if !self.calls {
                self.differ(alloc, "no call", "is made")?;
            }
        }
        if self.differs {
            self.differing = self.differing.saturating_add(1);
        }
        self.calls = false;
        self.differs = false;
        Ok(())
    }

    /// Notes a difference where no line stated the expected status of the last call.
    fn end_call(&mut self, alloc: Global) -> Result<(), AllocError> {
        match self.open_status.take() {
            None => Ok(()),
            Some(_) => self.differ(alloc, "no status said", "of the last call"),
        }
    }

    /// Cuts a file that is held, or inverts some of its bits, by `word`: `line` is `NAME N ..`.
    fn alter(&mut self, alloc: Global, word: &str, line: &str) -> Result<(), AllocError> {
        let (name, numbers) = line.split_once(' ').unwrap_or((line, ""));
        for number in numbers.split(' ') {
            let Ok(count) = number.parse::<usize>() else {
                self.differ(alloc, "no number", number)?;
                continue;
            };
            let altered = match word {
                "cut" => self.bench.cut(alloc, name, count)?,
                _ => self.bench.flip(alloc, name, count)?,
            };
            if !altered {
                self.differ(alloc, "nothing to alter under", line)?;
            }
        }
        Ok(())
    }

    fn fail_store(&mut self, alloc: Global, numbers: &str) -> Result<(), AllocError> {
        for word in numbers.split(' ') {
            match word.parse::<u32>() {
                Ok(number) => self.bench.fail_store(number)?,
                Err(_) => self.differ(alloc, "no number", word)?,
            }
        }
        Ok(())
    }

    fn fail_sink(&mut self, alloc: Global, numbers: &str) -> Result<(), AllocError> {
        for word in numbers.split(' ') {
            match word.parse::<u32>() {
                Ok(number) => self.bench.fail_sink(number)?,
                Err(_) => self.differ(alloc, "no number", word)?,
            }
        }
        Ok(())
    }

    /// Makes the call with the words of `line`, separated by single blanks; `""` is an empty word.
    fn run(&mut self, alloc: Global, line: &str) -> Result<(), AllocError> {
        self.end_call(alloc)?;
        self.calls = true;
        let mut words = Vec::new(alloc);
        if !line.is_empty() {
            for word in line.split(' ') {
                let word = if word == "\"\"" { "" } else { word };
                words.push(String::from_str(alloc, word)?)?;
            }
        }
        self.open_status = Some(self.bench.run(alloc, words.as_slice()));
        Ok(())
    }

    /// Notes a difference where the last call didn't end with the status `wanted`. The next content lines describe what
    /// it put.
    fn judge_status(&mut self, alloc: Global, wanted: &str) -> Result<(), AllocError> {
        let Some(got) = self.open_status.take() else {
            return self.differ(alloc, "no call before status", wanted);
        };
        let text = format!(in alloc; "{got}")?;
        if text.as_str() != wanted {
            let line = format!(in alloc; "{got}, not {wanted}")?;
            self.differ(alloc, "status", line.as_str())?;
        }
        self.expect(alloc, Purpose::Report)
    }

    fn judge_report(
        &mut self,
        alloc: Global,
        wanted: &[u8],
        reach: Reach,
    ) -> Result<(), AllocError> {
        if is_wanted(self.bench.report(), wanted, reach) {
            return Ok(());
        }
        let got = shown(alloc, self.bench.report())?;
        self.differ(alloc, "put", got.as_str())
    }

    fn judge_notes(
        &mut self,
        alloc: Global,
        wanted: &[u8],
        reach: Reach,
    ) -> Result<(), AllocError> {
        if is_wanted(self.bench.notes(), wanted, reach) {
            return Ok(());
        }
        let got = shown(alloc, self.bench.notes())?;
        self.differ(alloc, "notes", got.as_str())
    }

    fn judge_progress(
        &mut self,
        alloc: Global,
        wanted: &[u8],
        reach: Reach,
    ) -> Result<(), AllocError> {
        if is_wanted(self.bench.progress(), wanted, reach) {
            return Ok(());
        }
        let got = shown(alloc, self.bench.progress())?;
        self.differ(alloc, "progress", got.as_str())
    }

    fn judge_held(
        &mut self,
        alloc: Global,
        name: &str,
        wanted: &[u8],
        reach: Reach,
    ) -> Result<(), AllocError> {
        let what = match self.bench.held(name) {
            Some(bytes) => if is_wanted(bytes, wanted, reach) {
                return Ok(());
            } else {
                shown(alloc, bytes)?
            },
            None => String::from_str(alloc, "nothing")?,
        };
        let line = format!(in alloc; "{name}: {what}")?;
        self.differ(alloc, "held under", line.as_str())
    }

    fn judge_missing(&mut self, alloc: Global, name: &str) -> Result<(), AllocError> {
        match self.bench.held(name) {
            None => Ok(()),
            Some(_) => self.differ(alloc, "not missing:", name),
        }
    }

    /// Notes a difference where the two names in `line` don't hold the same bytes.
    fn judge_same(&mut self, alloc: Global, line: &str) -> Result<(), AllocError> {
        let (first, second) = line.split_once(' ').unwrap_or((line, ""));
        match (self.bench.held(first), self.bench.held(second)) {
            (Some(some), Some(others)) if some == others => Ok(()),
            _ => self.differ(alloc, "not the same:", line),
        }
    }

    /// Notes a difference where the answer to `question` for the source in a file isn't what is wanted: `line` is
    /// `NAME WANTED`.
    fn judge_source(
        &mut self,
        alloc: Global,
        question: Question,
        line: &str,
    ) -> Result<(), AllocError> {
        let (name, wanted) = line.split_once(' ').unwrap_or((line, ""));
        let got = match self.bench.held(name) {
            Some(bytes) => question.answer(alloc, bytes)?,
            None => String::from_str(alloc, "nothing")?,
        };
        self.judge_verdict(alloc, line, wanted, got.as_str())
    }

    /// Notes a difference where a source that is cut isn't one that ends too early: `line` is `NAME N ..`, and for each
    /// number the file is cut to that many bytes.
    fn judge_cuts(&mut self, alloc: Global, line: &str) -> Result<(), AllocError> {
        let (name, numbers) = line.split_once(' ').unwrap_or((line, ""));
        for number in numbers.split(' ') {
            let Ok(count) = number.parse::<usize>() else {
                self.differ(alloc, "no number", number)?;
                continue;
            };
            self.judge_cut(alloc, name, count)?;
        }
        Ok(())
    }

    /// Notes a difference where the source in the file `name`, cut to `count` bytes, isn't one that ends too early.
    fn judge_cut(&mut self, alloc: Global, name: &str, count: usize) -> Result<(), AllocError> {
        let cut = format!(in alloc; "{name} {count}")?;
        let Some(bytes) = self.bench.beginning(name, count) else {
            return self.differ(alloc, "nothing to alter under", cut.as_str());
        };
        let wanted = ends_too_early(alloc, bytes)?;
        let got = verdict(alloc, bytes)?;
        self.judge_verdict(alloc, cut.as_str(), wanted.as_str(), got.as_str())
    }

    /// Notes a difference where what is said of a source of which a part is altered isn't what is wanted: `line` is
    /// `NAME A B WANTED`, and the part is that from byte A up to byte B.
    fn judge_altered(
        &mut self,
        alloc: Global,
        alteration: Alteration,
        line: &str,
    ) -> Result<(), AllocError> {
        let Some(part) = Part::read(line) else {
            return self.differ(alloc, "no part of a file:", line);
        };
        let altered = match self.bench.held(part.name) {
            Some(bytes) => part.altered(alloc, alteration, bytes)?,
            None => None,
        };
        let Some(text) = altered else {
            return self.differ(alloc, "nothing to alter under", line);
        };
        let got = verdict(alloc, text.as_slice())?;
        self.judge_verdict(alloc, line, part.wanted, got.as_str())
    }

    /// Notes a difference where `got`, what is said of the source that the row `row` names, isn't `wanted`.
    fn judge_verdict(
        &mut self,
        alloc: Global,
        row: &str,
        wanted: &str,
        got: &str,
    ) -> Result<(), AllocError> {
        self.calls = true;
        if got == wanted {
            return Ok(());
        }
        let line = format!(in alloc; "{got}, not {row}")?;
        self.differ(alloc, "said", line.as_str())
    }

    /// Notes a difference in this case: `what`, and the `text` that differs.
    fn differ(&mut self, alloc: Global, what: &str, text: &str) -> Result<(), AllocError> {
        self.differs = true;
        let title = self.title.as_str();
        let case = match &self.case {
            Some(name) => name.as_str(),
            None => "before the first case",
        };
        let line = format!(in alloc; "{title}: {case}: {what} {text}\n")?;
        self.text.push_str(line.as_str())
    }
}

/// Checks whether `bytes` are the bytes `wanted`, or begin with them where `reach` says so.
fn is_wanted(bytes: &[u8], wanted: &[u8], reach: Reach) -> bool {
    match reach {
        Reach::Whole => bytes == wanted,
        Reach::Beginning => bytes.starts_with(wanted),
    }
}

/// The maximum number of bytes of a report or a file that are shown.
const SHOWN: usize = 400;

/// Returns the printed form of `bytes`: in quotes where they are a short text, otherwise their number.
fn shown(alloc: Global, bytes: &[u8]) -> Result<String, AllocError> {
    let count = bytes.len();
    match std::str::from_utf8(bytes) {
        Ok(text) if count <= SHOWN => format!(in alloc; "{text:?}"),
        _ => format!(in alloc; "{count} bytes"),
    }
}

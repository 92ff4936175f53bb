// Answers as lines of text on standard output: the example, the function that was called, and what it answers.

use check_set::Verdict;
use record::Refusal;
use record::number::reason_number;
use record_show::Extent;
use std::{fmt, io};

// Bytes at the end of a line: how many there are, and each as two digits behind a blank.
#[derive(Clone, Copy)]
struct Listed<'a>(&'a [u8]);

impl<'a> fmt::Display for Listed<'a> {
    fn fmt<W: fmt::Write>(&self, f: &mut fmt::Formatter<W>) -> fmt::Result {
        let n = self.0.len();
        write!(f, "{n}")?;
        for x in self.0 {
            write!(f, " {x:02x}")?;
        }
        Ok(())
    }
}

// A refusal by its number and place.
#[derive(Clone, Copy)]
struct Refused(Refusal);

impl fmt::Display for Refused {
    fn fmt<W: fmt::Write>(&self, f: &mut fmt::Formatter<W>) -> fmt::Result {
        let number = reason_number(self.0.reason);
        let place = self.0.place;
        write!(f, "refused {number} at {place}")
    }
}

// The first n bytes of a buffer, which has as many.
pub fn front(b: &[u8], n: usize) -> &[u8] {
    if n <= b.len() { &b[..n] } else { b }
}

// The lines of one example.
#[derive(Clone, Copy)]
pub struct Teller<'a, R: Print> {
    rt: &'a R,
    example: &'a str,
}

impl<'a, R: Print> Teller<'a, R> {
    pub fn new(rt: &'a R, example: &'a str) -> Teller<'a, R> {
        Teller { rt, example }
    }

    // A line: what the call came to, behind the example and the call.
    fn tell(&self, call: &str, what: impl fmt::Display + Drop) -> io::Result<()> {
        let example = self.example;
        println!(self.rt; "{example} {call} {what}")
    }

    // Bytes.
    pub fn bytes(&self, call: &str, b: &[u8]) -> io::Result<()> {
        self.tell(call, Listed(b))
    }

    // A length.
    pub fn length(&self, call: &str, n: usize) -> io::Result<()> {
        self.tell(call, n)
    }

    // A number of rules.
    pub fn count(&self, call: &str, a: Result<usize, Refusal>) -> io::Result<()> {
        match a {
            Ok(n) => self.tell(call, n),
            Err(x) => self.tell(call, Refused(x)),
        }
    }

    // Where the record of a rule lies.
    pub fn shown(&self, call: &str, number: u32, a: Result<Extent, Refusal>) -> io::Result<()> {
        match a {
            Ok(e) => {
                let start = e.start;
                let size = e.size;
                self.tell(call, format_args!("{number} at {start} length {size}"))
            }
            Err(x) => {
                let refused = Refused(x);
                self.tell(call, format_args!("{number} {refused}"))
            }
        }
    }

    // The record of a rule.
    pub fn record(&self, call: &str, number: u32, record: &[u8]) -> io::Result<()> {
        let listed = Listed(record);
        self.tell(call, format_args!("{number} length {listed}"))
    }

    // What was written to the start of a buffer.
    pub fn written(&self, call: &str, a: Result<usize, Refusal>, out: &[u8]) -> io::Result<()> {
        match a {
            Ok(n) => self.tell(call, Listed(front(out, n))),
            Err(x) => self.tell(call, Refused(x)),
        }
    }

    // What a check answers; a smaller model stands at the start of a buffer.
    pub fn checked(&self, call: &str, a: Result<Verdict, Refusal>, out: &[u8]) -> io::Result<()> {
        match a {
            Ok(Verdict::Clash(n)) => self.tell(call, format_args!("clash {n}")),
            Ok(Verdict::Broken(rule)) => {
                let n = rule.0;
                self.tell(call, format_args!("broken {n}"))
            }
            Ok(Verdict::Smaller(n)) => {
                let listed = Listed(front(out, n));
                self.tell(call, format_args!("smaller {listed}"))
            }
            Ok(Verdict::Yes) => self.tell(call, "yes"),
            Err(x) => self.tell(call, Refused(x)),
        }
    }
}

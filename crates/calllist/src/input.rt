// Standard input, line by line.
ghost use Rattle.std.specs.Prelude.{◌≡◌, IfOk, IfErr};
ghost use Rattle.std.specs.IoError.{error_kind};

use crate::stop::Stop;
use std::alloc::Global;
use std::io;
use std::io::{BufRead, BufReader, ErrorKind, Lines, Stdin};

#[derive(Drop)]
pub struct Input {
    lines: Lines<BufReader<Stdin>>,
    // how many lines were read
    pub number: u64,
}

impl Input {
    // Fails only where there is no memory for the reader's buffer; nothing is read then.
    pub(crate) fn new(heap: Global, stdin: Stdin) -> io::Result<Input>
        ensures number { IfOk result (λ input. input.number ≡ 0) }
        ensures err { IfErr result (λ e. error_kind e ≡ ErrorKind.OutOfMemory) }
    {
        Ok(Input {
            lines: BufReader::new(heap, stdin)?.lines(heap),
            number: 0,
        })
    }
}

impl Iterator for Input {
    type Item = Result<String, Stop>;

    ghost remaining = { λ s. ⟦<Lines<BufReader<Stdin>> as Iterator>⟧.remaining s.lines };

    fn next(&mut self) -> Option<Result<String, Stop>> {
        let line = self.lines.next()?.map_err(|_| Stop::Input);
        if line.is_ok() {
            self.number = self.number.saturating_add(1);
        }
        Some(line)
    }
}

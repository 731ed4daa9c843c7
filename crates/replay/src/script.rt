// The script, read in pieces and taken line by line. The library's `BufReader` allocates.
ghost use Rattle.io.specs.Counts.{IsPrefixLen};

use crate::BLOCK;
use crate::answers::Told;
use crate::orders::Order;
use crate::output::Output;
use crate::text::Text;
use std::io::{Read, Stderr, Stdin, Write};

#[derive(Drop)]
pub struct Script<'a> {
    stdin: Stdin,
    stderr: Stderr,
    // a piece of it, the next byte and the piece's length
    piece: &'a mut [u8; BLOCK],
    from: usize,
    to: usize,
    // the line that has begun
    text: Text,
}

// How many bytes a read gave. One that fails gives none, and says so.
fn count(mut stdin: Stdin, mut stderr: Stderr, input: &mut [u8]) -> usize
    ensures { IsPrefixLen result input.new }
{
    match stdin.read(input) {
        Ok(got) => got,
        Err(_) => {
            let _ = stderr.write_all(b"replay: the script cannot be read\n");
            0
        }
    }
}

impl<'a> Script<'a> {
    pub(crate) fn new(stdin: Stdin, stderr: Stderr, piece: &'a mut [u8; BLOCK]) -> Script<'a> {
        Script {
            stdin,
            stderr,
            piece,
            from: 0,
            to: 0,
            text: Text::Nothing,
        }
    }

    // Reads the next piece, if there is one. The last line may lack its newline: one is put behind it.
    fn read(&mut self) -> Option<()> {
        self.from = 0;
        self.to = count(self.stdin, self.stderr, self.piece);
        if self.to == 0 {
            if !self.text.is_begun() {
                return None;
            }
            self.piece[0] = b'\n';
            self.to = 1;
        }
        Some(())
    }

    // What the next line says; nothing, if it does not end in this piece.
    fn line(&mut self, kept: &mut [u8]) -> Order {
        let mut text = self.text;
        // never past the piece; a struct that is lent on has no invariant that says so
        let rest = self.piece.get(self.from..self.to).unwrap_or(&[]);
        for (i, &byte) in rest.iter().enumerate() {
            if byte == b'\n' {
                self.from += i + 1;
                self.text = Text::Nothing;
                return text.order(kept).unwrap_or(Order::Tell(Told::Unknown));
            }
            text = text.followed(byte, kept);
        }
        self.from = self.to;
        self.text = text;
        Order::Tell(Told::Nothing)
    }

    // One line on, or to the end of the piece. None at the script's end, and once answers cannot be written.
    pub(crate) fn next(&mut self, kept: &mut [u8], output: &mut Output) -> Option<Order> {
        if self.to <= self.from {
            output.flush().ok()?;
            self.read()?;
        }
        Some(self.line(kept))
    }
}

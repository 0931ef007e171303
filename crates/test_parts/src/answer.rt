//! What a line is answered.

use std::alloc::{AllocError, Global};
use std::fmt::{Debug, Display};

/// What a line is answered. If memory for it runs out, it says that alone.
#[derive(Drop)]
pub struct Answer {
    text: String,
    is_lost: bool,
}

impl Answer {
    /// Nothing yet.
    pub fn new(alloc: Global) -> Self {
        Answer {
            text: String::new(alloc),
            is_lost: false,
        }
    }

    /// Takes back what was answered.
    pub fn clear(&mut self) {
        self.text.clear();
        self.is_lost = false;
    }

    /// What is answered.
    pub fn text(&self) -> &str {
        if self.is_lost {
            return "out of memory";
        }
        self.text.as_str()
    }

    /// Keeps whether memory ran out.
    fn keep(&mut self, written: Result<(), AllocError>) {
        self.is_lost = self.is_lost || written.is_err();
    }

    /// Appends a text.
    pub fn push(&mut self, text: &str) {
        let written = self.text.push_str(text);
        self.keep(written);
    }

    /// Appends a space unless nothing was answered.
    pub fn space(&mut self) {
        if !self.text.is_empty() {
            self.push(" ");
        }
    }

    /// Appends a word, after a space unless it is the first one.
    pub fn word(&mut self, word: &str) {
        self.space();
        self.push(word);
    }

    /// Appends hexadecimal digits.
    pub fn digits(&mut self, number: u32) {
        let written = write!(self.text, "{number:x}");
        self.keep(written);
    }

    /// Appends decimal digits.
    pub fn count(&mut self, number: u64) {
        let written = write!(self.text, "{number}");
        self.keep(written);
    }

    /// Appends a number, after a space unless it is the first one.
    pub fn number(&mut self, number: u32) {
        self.space();
        self.digits(number);
    }

    /// Appends numbers.
    pub fn numbers(&mut self, numbers: &[u32]) {
        for number in numbers {
            self.number(*number);
        }
    }

    /// Appends a number, or `none`, after a space unless it is the first one.
    pub fn found(&mut self, number: Option<u32>) {
        match number {
            Some(number) => self.number(number),
            None => self.word("none"),
        }
    }

    /// Appends `yes` or `no`.
    pub fn whether(&mut self, is_so: bool) {
        self.word(if is_so { "yes" } else { "no" });
    }

    /// Appends two digits for each byte.
    pub fn bytes(&mut self, bytes: &[u8]) {
        for byte in bytes {
            let written = write!(self.text, "{byte:02x}");
            self.keep(written);
        }
    }

    /// Appends a value as it is shown to programmers.
    pub fn shown<T: Debug>(&mut self, value: &T) {
        let written = write!(self.text, "{value:?}");
        self.keep(written);
    }

    /// Appends a value as it is shown to users.
    pub fn told<T: Display>(&mut self, value: &T) {
        let written = write!(self.text, "{value}");
        self.keep(written);
    }
}

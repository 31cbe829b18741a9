//! The tokens of a TOML text.
use std::alloc::{AllocError, Global};

/// What a token is.
#[derive(Clone, Copy, PartialEq, Eq)]
pub(crate) enum TokenKind {
    /// A bracket or a brace that opens.
    Open,
    /// A bracket or a brace that closes.
    Close,
    /// A comma.
    Comma,
    /// An equals sign.
    Equals,
    /// The end of a line.
    LineEnd,
    /// A key or a value: a string with its quotes, or what stands between spaces and marks.
    Word,
}

/// A token of a text.
#[derive(Clone, Copy)]
pub(crate) struct Token {
    /// What it is.
    pub(crate) kind: TokenKind,
    /// Where it begins, in bytes.
    pub(crate) start: usize,
    /// Where it ends, in bytes.
    pub(crate) end: usize,
}

/// What a scanner is in.
#[derive(Clone, Copy)]
enum ScanState {
    /// Between tokens.
    Between,
    /// A comment.
    Comment,
    /// A word without quotes, from here on.
    Bare(usize),
    /// The quotes with which a string begins: so many so far, from here on.
    Opening(u8, usize, u8),
    /// A string with this quote, from here on, after a backslash or not.
    Line(u8, usize, bool),
    /// A string over several lines, with so many quotes at the end so far.
    Lines(u8, usize, bool, u8),
}

/// Takes the tokens out of a text, byte by byte.
#[derive(Drop)]
struct Scanner {
    tokens: Vec<Token>,
    state: ScanState,
}

/// The tokens of a text, which may be no TOML.
///
/// # Errors
/// Memory ran out.
pub(crate) fn tokens_of(alloc: Global, text: &[u8]) -> Result<Vec<Token>, AllocError> {
    let mut scanner = Scanner {
        tokens: Vec::new(alloc),
        state: ScanState::Between,
    };
    for (at, byte) in text.iter().enumerate() {
        scanner.take(at, *byte)?;
    }
    scanner.take(text.len(), b'\n')?;
    let Scanner { tokens, state: _ } = scanner;
    Ok(tokens)
}

impl Scanner {
    // Takes the byte at this offset.
    fn take(&mut self, at: usize, byte: u8) -> Result<(), AllocError> {
        match self.state {
            ScanState::Between => self.begin(at, byte),
            ScanState::Comment => self.comment(at, byte),
            ScanState::Bare(start) => self.bare(start, at, byte),
            ScanState::Opening(quote, start, count) => self.opening(quote, start, count, at, byte),
            ScanState::Line(quote, start, escaped) => self.line(quote, start, escaped, at, byte),
            ScanState::Lines(quote, start, escaped, count) => {
                self.lines(
                    Long {
                        quote,
                        start,
                        escaped,
                        count,
                    },
                    at,
                    byte,
                )
            }
        }
    }

    // Puts a token.
    fn put(&mut self, kind: TokenKind, start: usize, end: usize) -> Result<(), AllocError> {
        self.state = ScanState::Between;
        self.tokens.push(Token { kind, start, end })?;
        Ok(())
    }

    // Puts a token of one byte.
    fn mark(&mut self, kind: TokenKind, at: usize) -> Result<(), AllocError> {
        self.put(kind, at, at.saturating_add(1))
    }

    // Takes a byte between tokens.
    fn begin(&mut self, at: usize, byte: u8) -> Result<(), AllocError> {
        self.state = ScanState::Between;
        match byte {
            b'[' | b'{' => self.mark(TokenKind::Open, at),
            b']' | b'}' => self.mark(TokenKind::Close, at),
            b',' => self.mark(TokenKind::Comma, at),
            b'=' => self.mark(TokenKind::Equals, at),
            b'\n' => self.mark(TokenKind::LineEnd, at),
            b' ' | b'\t' | b'\r' => Ok(()),
            b'#' => {
                self.state = ScanState::Comment;
                Ok(())
            }
            b'"' | b'\'' => {
                self.state = ScanState::Opening(byte, at, 1);
                Ok(())
            }
            _ => {
                self.state = ScanState::Bare(at);
                Ok(())
            }
        }
    }

    // Takes a byte of a comment.
    fn comment(&mut self, at: usize, byte: u8) -> Result<(), AllocError> {
        if byte == b'\n' {
            return self.begin(at, byte);
        }
        Ok(())
    }

    // Takes a byte after a word without quotes.
    fn bare(&mut self, start: usize, at: usize, byte: u8) -> Result<(), AllocError> {
        match byte {
            b'[' | b'{' | b']' | b'}' | b',' | b'=' | b'\n' | b' ' | b'\t' | b'\r' | b'#' => {
                self.put(TokenKind::Word, start, at)?;
                self.begin(at, byte)
            }
            _ => Ok(()),
        }
    }

    // Takes a byte after the quotes with which a string begins.
    fn opening(
        &mut self,
        quote: u8,
        start: usize,
        count: u8,
        at: usize,
        byte: u8,
    ) -> Result<(), AllocError> {
        if byte == quote && count >= 2 {
            self.state = ScanState::Lines(quote, start, false, 0);
            Ok(())
        } else if byte == quote {
            self.state = ScanState::Opening(quote, start, 2);
            Ok(())
        } else if count >= 2 {
            self.put(TokenKind::Word, start, at)?;
            self.begin(at, byte)
        } else {
            self.line(quote, start, false, at, byte)
        }
    }

    // Takes a byte of a string on one line.
    fn line(
        &mut self,
        quote: u8,
        start: usize,
        escaped: bool,
        at: usize,
        byte: u8,
    ) -> Result<(), AllocError> {
        if byte == b'\n' {
            self.put(TokenKind::Word, start, at)?;
            return self.begin(at, byte);
        }
        if byte == quote && !escaped {
            return self.put(TokenKind::Word, start, at.saturating_add(1));
        }
        let escapes = byte == b'\\' && quote == b'"' && !escaped;
        self.state = ScanState::Line(quote, start, escapes);
        Ok(())
    }

    // Takes a byte of a string over several lines, which ends before the first byte after three quotes or more.
    fn lines(&mut self, long: Long, at: usize, byte: u8) -> Result<(), AllocError> {
        if byte == long.quote && !long.escaped {
            let count = long.count.saturating_add(1);
            self.state = ScanState::Lines(long.quote, long.start, false, count);
            return Ok(());
        }
        if long.count >= 3 {
            self.put(TokenKind::Word, long.start, at)?;
            return self.begin(at, byte);
        }
        let escapes = byte == b'\\' && long.quote == b'"' && !long.escaped;
        self.state = ScanState::Lines(long.quote, long.start, escapes, 0);
        Ok(())
    }
}

/// A string over several lines.
#[derive(Clone, Copy)]
struct Long {
    quote: u8,
    start: usize,
    escaped: bool,
    count: u8,
}

//! Where the tables and keys of a scenario stand in its text.
use crate::span::Span;
use crate::token::{Token, TokenKind};

/// What is looked for: a table of a scenario, and a key of it.
#[derive(Clone, Copy)]
pub(crate) struct Target<'a> {
    /// The array that has the table as an element; none for the top table.
    pub(crate) array: Option<&'a str>,
    /// The place of the element.
    pub(crate) place: usize,
    /// The key; empty where none is looked for.
    pub(crate) key: &'a str,
}

/// What was found.
#[derive(Clone, Copy)]
pub(crate) struct Found {
    /// The element, or the line with which it begins.
    pub(crate) element: Option<Span>,
    /// The key.
    pub(crate) key: Option<Span>,
    /// The value at the key.
    pub(crate) value: Option<Span>,
}

/// What a search is in.
#[derive(Clone, Copy)]
enum SearchState {
    /// The beginning of a line outside all values.
    LineStart,
    /// A line that begins a table or an element.
    Header,
    /// After a key.
    Key,
    /// A value.
    Value,
}

/// A search for a target, over tokens.
#[derive(Clone, Copy)]
struct Search<'a> {
    text: &'a [u8],
    target: Target<'a>,
    found: Found,
    state: SearchState,
    /// Whether the lines are those of the target's table.
    inside: bool,
    /// Whether no table or element was begun yet.
    at_top: bool,
    /// How many elements of the array were begun by lines of their own.
    begun: usize,
    /// The line that begins a table or an element, and the brackets at its front.
    header: Span,
    brackets: usize,
    /// The key of the line, and its value as far as it goes.
    key: Option<Span>,
    value: Option<Span>,
    /// How many brackets and braces are open in the value.
    depth: usize,
    /// Whether the value is the target's array, and at which element of it the search is.
    in_array: bool,
    place: usize,
    /// The key in an element, and its value as far as it goes.
    inner_key: Option<Span>,
    inner_value: Option<Span>,
    inner_is_value: bool,
}

/// Where the target stands in a text that has these tokens.
pub(crate) fn locate(text: &[u8], tokens: &[Token], target: Target) -> Found {
    let nothing = Span { start: 0, end: 0 };
    let mut search = Search {
        text,
        target,
        found: Found {
            element: None,
            key: None,
            value: None,
        },
        state: SearchState::LineStart,
        inside: target.array.is_none(),
        at_top: true,
        begun: 0,
        header: nothing,
        brackets: 0,
        key: None,
        value: None,
        depth: 0,
        in_array: false,
        place: 0,
        inner_key: None,
        inner_value: None,
        inner_is_value: false,
    };
    for token in tokens {
        search.take(*token);
    }
    search.found
}

// The span from the beginning of one, if there is one, to the end of a token.
fn until(span: Option<Span>, token: Token) -> Span {
    match span {
        Some(span) => Span {
            start: span.start,
            end: token.end,
        },
        None => Span {
            start: token.start,
            end: token.end,
        },
    }
}

impl Search<'_> {
    // Takes the next token.
    fn take(&mut self, token: Token) {
        match self.state {
            SearchState::LineStart => self.line_start(token),
            SearchState::Header => self.header(token),
            SearchState::Key => self.after_key(token),
            SearchState::Value => self.value(token),
        }
    }

    // Whether a word is this text, in quotes or not.
    fn is(&self, span: Span, word: &str) -> bool {
        let bytes = self.text.get(span.start..span.end).unwrap_or(&[]);
        let text = match bytes {
            [b'"', inner @ .., b'"'] => inner,
            [b'\'', inner @ .., b'\''] => inner,
            _ => bytes,
        };
        text == word.as_bytes()
    }

    // Whether a word is the target's array.
    fn is_array(&self, span: Span) -> bool {
        match self.target.array {
            Some(array) => self.is(span, array),
            None => false,
        }
    }

    // Takes a token at the beginning of a line.
    fn line_start(&mut self, token: Token) {
        match token.kind {
            TokenKind::Open => {
                self.state = SearchState::Header;
                self.header = until(None, token);
                self.brackets = 1;
                self.key = None;
            }
            TokenKind::Word => {
                self.state = SearchState::Key;
                self.key = Some(until(None, token));
                self.value = None;
            }
            _ => {}
        }
    }

    // Takes a token of a line that begins a table or an element.
    fn header(&mut self, token: Token) {
        match token.kind {
            TokenKind::Open => self.brackets = self.brackets.saturating_add(1),
            TokenKind::Word => self.key = Some(until(self.key, token)),
            TokenKind::LineEnd => return self.end_header(),
            _ => {}
        }
        self.header = until(Some(self.header), token);
    }

    // Ends such a line.
    fn end_header(&mut self) {
        self.state = SearchState::LineStart;
        self.at_top = false;
        self.inside = false;
        let Some(name) = self.key else {
            return;
        };
        if self.target.array.is_none() && self.is(name, self.target.key) {
            self.keep(self.header, self.header);
        }
        if self.brackets == 2 && self.is_array(name) {
            self.inside = self.begun == self.target.place;
            self.begun = self.begun.saturating_add(1);
            if self.inside {
                self.found.element = Some(self.header);
            }
        }
    }

    // Takes a token after a key.
    fn after_key(&mut self, token: Token) {
        match token.kind {
            TokenKind::Word => self.key = Some(until(self.key, token)),
            TokenKind::Equals => {
                self.state = SearchState::Value;
                self.depth = 0;
                self.place = 0;
                self.inner_key = None;
                self.inner_is_value = false;
                self.in_array = match self.key {
                    Some(key) => self.at_top && self.is_array(key),
                    None => false,
                };
            }
            TokenKind::LineEnd => self.state = SearchState::LineStart,
            _ => {}
        }
    }

    // Takes a token of a value.
    fn value(&mut self, token: Token) {
        if token.kind == TokenKind::LineEnd {
            if self.depth == 0 {
                self.end_line();
            }
            return;
        }
        if self.in_array {
            self.element(token);
        }
        match token.kind {
            TokenKind::Open => self.depth = self.depth.saturating_add(1),
            TokenKind::Close => self.depth = self.depth.saturating_sub(1),
            _ => {}
        }
        self.value = Some(until(self.value, token));
    }

    // Ends a line with a key and its value.
    fn end_line(&mut self) {
        self.state = SearchState::LineStart;
        if let (true, Some(key), Some(value)) = (self.inside, self.key, self.value) {
            if self.is(key, self.target.key) {
                self.keep(key, value);
            }
        }
    }

    // Takes a token of the target's array.
    fn element(&mut self, token: Token) {
        if self.depth == 1 && token.kind == TokenKind::Comma {
            self.place = self.place.saturating_add(1);
            return;
        }
        if self.place != self.target.place || self.depth == 0 {
            return;
        }
        if self.depth > 1 || token.kind != TokenKind::Close {
            self.found.element = Some(until(self.found.element, token));
        }
        if self.depth == 2 {
            self.inner(token);
        } else if self.depth > 2 {
            self.inner_value = Some(until(self.inner_value, token));
        }
    }

    // Takes a token between the braces of the target's element.
    fn inner(&mut self, token: Token) {
        match token.kind {
            TokenKind::Equals => {
                self.inner_is_value = true;
                self.inner_value = None;
            }
            TokenKind::Comma | TokenKind::Close => {
                self.end_inner();
            }
            _ if self.inner_is_value => self.inner_value = Some(until(self.inner_value, token)),
            _ => self.inner_key = Some(until(self.inner_key, token)),
        }
    }

    // Ends a key and its value in the target's element.
    fn end_inner(&mut self) {
        if let (Some(key), Some(value)) = (self.inner_key, self.inner_value) {
            if self.is(key, self.target.key) {
                self.keep(key, value);
            }
        }
        self.inner_key = None;
        self.inner_value = None;
        self.inner_is_value = false;
    }

    // Keeps the key that was looked for, the first time that it is met.
    fn keep(&mut self, key: Span, value: Span) {
        if self.found.key.is_none() {
            self.found.key = Some(key);
            self.found.value = Some(value);
        }
    }
}

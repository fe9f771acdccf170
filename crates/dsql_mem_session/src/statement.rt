ghost use Rattle.std.specs.Prelude.{◌≡◌, ◌&&◌, [], ◌∷◌, MatchOption, option_map, None, if◌then◌else◌};
ghost use Rattle.dsql_mem_session.specs.Statement.{words_of, is_word, with_one_word, with_two_words, statement_of, is_input, inputs_of, is_query};
ghost use Rattle.dsql_mem_session.specs.Spelled.{spelled};

/// A statement, with its words as they stand in its text.
#[derive(Clone, Copy)]
pub(crate) enum Statement<'a> {
    Set { key: &'a str, value: &'a str },
    Add { key: &'a str, value: &'a str },
    Del { key: &'a str },
    Get { key: &'a str },
    ListKeys { prefix: &'a str },
}

impl<'a> Statement<'a> {
    /// Returns the statement that a text is, or `None` if it is none.
    pub(crate) fn parse(text: &'a str) -> Option<Statement<'a>>
        ensures { option_map spelled result ≡ statement_of text.now }
    {
        let (verb, rest) = split_word(text)?;
        match split_word(rest) {
            None => Statement::of_word(verb, rest),
            Some((key, rest)) => match split_word(rest) {
                None => Statement::of_words(verb, key, rest),
                Some(_) => None,
            },
        }
    }

    /// Returns the statement that a verb and one part after it are.
    fn of_word(verb: &str, word: &'a str) -> Option<Statement<'a>>
        ensures { option_map spelled result ≡ (if is_word word.now then with_one_word verb.now word.now else None) }
    {
        if word.is_empty() {
            return None;
        }
        match verb {
            "DEL" => Some(Statement::Del { key: word }),
            "GET" => Some(Statement::Get { key: word }),
            "LIST" => Some(Statement::ListKeys { prefix: word }),
            _ => None,
        }
    }

    /// Returns the statement that a verb and two parts after it are.
    fn of_words(verb: &str, key: &'a str, value: &'a str) -> Option<Statement<'a>>
        ensures { option_map spelled result
            ≡ (if is_word key.now && is_word value.now then with_two_words verb.now key.now value.now else None) }
    {
        if key.is_empty() || value.is_empty() {
            return None;
        }
        match verb {
            "SET" => Some(Statement::Set { key, value }),
            "ADD" => Some(Statement::Add { key, value }),
            _ => None,
        }
    }

    /// Returns how many of the statement's words stand for inputs.
    pub(crate) fn inputs(&self) -> u8
        ensures { result ≡ inputs_of (spelled self.now) }
    {
        match self {
            Statement::Set { key, value } | Statement::Add { key, value } => {
                u8::from(is_input(key)) + u8::from(is_input(value))
            }
            Statement::Del { key } | Statement::Get { key } => u8::from(is_input(key)),
            Statement::ListKeys { prefix } => u8::from(is_input(prefix)),
        }
    }

    /// Returns true if the statement is for Query. Any other is for Exec.
    pub(crate) fn is_query(&self) -> bool
        ensures { result ≡ is_query (spelled self.now) }
    {
        matches!(self, Statement::Get { .. } | Statement::ListKeys { .. })
    }
}

/// Returns the word before a text's first space, and the text after that space. Returns `None` if the text has
/// no space.
fn split_word(text: &str) -> Option<(&str, &str)>
    ensures { MatchOption result (words_of text.now ≡ text.now ∷ []) (λ parts. words_of text.now
        ≡ parts.0.now ∷ words_of parts.1.now) }
{
    text.split_once(' ')
}

/// Returns true if the word stands for an input.
pub(crate) fn is_input(word: &str) -> bool
    ensures { result ≡ is_input word.now }
{
    word == "?"
}

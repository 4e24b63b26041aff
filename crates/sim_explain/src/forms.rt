//! The forms of commands.

/// What a word of a command is.
#[derive(Clone, Copy, PartialEq, Eq)]
pub(crate) enum Part {
    /// The name of a space.
    Space,
    /// A variable that no line before has named.
    NewVariable,
    /// One that a line before has named.
    Variable,
    /// A name that a registry may have.
    Name,
    Number,
    Fuel,
    /// A word that may be any.
    Word,
}

/// A command: its verb, its form as people read it, and its further words. Arguments may follow those of a root.
#[derive(Clone, Copy)]
pub(crate) struct Form {
    pub verb: &'static str,
    pub text: &'static str,
    pub parts: &'static [Part],
}

const ROOT: &[Part] = &[
    Part::Space,
    Part::NewVariable,
    Part::Fuel,
    Part::Word,
    Part::Word,
];

const LOOKUP: &[Part] = &[Part::Space, Part::Space, Part::Name, Part::NewVariable];

const BINDING: &[Part] = &[Part::Space, Part::Word, Part::Variable];

const BETWEEN: &[Part] = &[Part::Space, Part::Space];

pub(crate) const FORMS: [Form; 18] = [
    Form {
        verb: "space",
        text: "space S",
        parts: &[Part::Word],
    },
    Form {
        verb: "root",
        text: "root S VAR FUEL CLASS METHOD ARG ..",
        parts: ROOT,
    },
    Form {
        verb: "lookup",
        text: "lookup S T NAME VAR",
        parts: LOOKUP,
    },
    Form {
        verb: "ack",
        text: "ack S VAR",
        parts: &[Part::Space, Part::Variable],
    },
    Form {
        verb: "bind",
        text: "bind S NAME VAR",
        parts: BINDING,
    },
    Form {
        verb: "rebind",
        text: "rebind S NAME VAR",
        parts: BINDING,
    },
    Form {
        verb: "unbind",
        text: "unbind S NAME",
        parts: &[Part::Space, Part::Word],
    },
    Form {
        verb: "open",
        text: "open S T",
        parts: BETWEEN,
    },
    Form {
        verb: "refuse",
        text: "refuse S T",
        parts: BETWEEN,
    },
    Form {
        verb: "deliver",
        text: "deliver S T",
        parts: BETWEEN,
    },
    Form {
        verb: "reply",
        text: "reply S T",
        parts: BETWEEN,
    },
    Form {
        verb: "readfail",
        text: "readfail S T",
        parts: BETWEEN,
    },
    Form {
        verb: "writefail",
        text: "writefail S T N",
        parts: &[Part::Space, Part::Space, Part::Number],
    },
    Form {
        verb: "moment",
        text: "moment S MS",
        parts: &[Part::Space, Part::Number],
    },
    Form {
        verb: "sweep",
        text: "sweep S",
        parts: &[Part::Space],
    },
    Form {
        verb: "step",
        text: "step S",
        parts: &[Part::Space],
    },
    Form {
        verb: "show",
        text: "show S",
        parts: &[Part::Space],
    },
    Form {
        verb: "settle",
        text: "settle",
        parts: &[],
    },
];

/// Returns the form of the command of a verb.
pub(crate) fn form_of(verb: &str) -> Option<&'static Form> {
    FORMS.iter().find(|form| form.verb == verb)
}

impl Form {
    /// Whether a command has so many words after its verb.
    pub fn has(&self, count: usize) -> bool {
        count == self.parts.len() || (self.verb == "root" && count > self.parts.len())
    }
}

//! Colours, where a terminal shows them.

/// How text is written.
#[derive(Clone, Copy, Debug, Eq, PartialEq)]
pub struct Look {
    /// Whether for a machine to read, as JSON.
    pub is_json: bool,
    /// Whether in colours.
    pub is_coloured: bool,
}

/// What a text says, which decides its colour.
#[derive(Clone, Copy, Debug, Eq, PartialEq)]
pub enum Role {
    /// It is beside the matter.
    Faint,
    /// A reply, or an answer.
    Reply,
    /// Somebody was answered.
    Granted,
    /// Somebody waits.
    Waiting,
    /// It is wrong.
    Wrong,
}

impl Look {
    /// What begins a text of this role.
    pub fn on(self, role: Role) -> &'static str {
        if !self.is_coloured {
            return "";
        }
        match role {
            Role::Faint => "\u{1b}[2m",
            Role::Reply => "\u{1b}[1m",
            Role::Granted => "\u{1b}[32m",
            Role::Waiting => "\u{1b}[33m",
            Role::Wrong => "\u{1b}[31m",
        }
    }

    /// What ends it.
    pub fn off(self) -> &'static str {
        if self.is_coloured { "\u{1b}[0m" } else { "" }
    }
}

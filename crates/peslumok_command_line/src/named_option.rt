/// An option: its name, how it is used, what its value is called, and its help.
#[derive(Clone, Copy)]
pub(crate) struct NamedOption {
    pub name: &'static str,
    pub usage: Usage,
    pub value: &'static str,
    pub help: &'static str,
}

/// How an option is used.
#[derive(Clone, Copy)]
pub(crate) enum Usage {
    /// Many times, and once at least, each time with a value.
    Required,
    /// Many times, each time with a value.
    Many,
    /// Once, with a value.
    Once,
    /// Once, with a number from 1 on.
    Number,
    /// The same, with a number that holds where the option is left out.
    NumberOr(&'static str),
    /// Once, without a value.
    Flag,
}

use peslumok_texts::formats::{OutputFormat, RecordFormat};
use peslumok_texts::words::{BySpec, Condition, DateField, DecimalField, Metric};

/// What the words ask.
#[derive(Debug, Drop)]
pub enum Chosen<'a> {
    /// `group`: one page of groups, or all pages.
    Group(GroupOptions<'a>),
    /// `request`: the header for `walk` that the options stand for.
    Request(GroupOptions<'a>),
    /// `walk`: the pages of a file, or of standard input.
    Walk(Option<&'a str>),
    /// `check`: what is wrong with a file, or with standard input.
    Check(Option<&'a str>),
}

/// The options of `group` and `request`.
#[derive(Debug, Drop)]
pub struct GroupOptions<'a> {
    /// The files to read; none stands for standard input, as does `-`. `request` has none.
    pub files: Vec<&'a str>,
    /// What groups are made by, 1 to 16 of them.
    pub by: Vec<BySpec<'a>>,
    pub conditions: Vec<Condition<'a>>,
    /// The JSON of a query that the records meet too.
    pub query: Option<&'a str>,
    /// The columns of numbers, in the order of their kinds.
    pub metrics: Vec<Metric<'a>>,
    pub has_total: bool,
    /// How many groups a page has, 1 at least.
    pub size: u32,
    /// The values of the group that the page begins after.
    pub after: Option<&'a str>,
    pub is_all: bool,
    /// How many groups there are, those with the most records, where that is asked: 1 at least,
    /// and then neither `after` nor `is_all`.
    pub top: Option<u32>,
    pub dates: Vec<DateField<'a>>,
    pub decimals: Vec<DecimalField<'a>>,
    /// The fields that hold texts, also where these look like numbers.
    pub texts: Vec<&'a str>,
    /// The format of the input, where it is not told by the names of files.
    pub from: Option<RecordFormat>,
    /// The format of the output, where it is not told by where it goes.
    pub to: Option<OutputFormat>,
}

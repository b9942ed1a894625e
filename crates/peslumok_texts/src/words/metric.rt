ghost use Rattle.std.specs.Prelude.{◌≡◌};
ghost use Rattle.peslumok_texts.specs.words.Metric.{word_of};

/// What a metric tells of a field's values.
#[derive(Clone, Copy, Debug, PartialEq, Eq)]
pub enum MetricKind {
    /// How many there are.
    Count,
    /// The sum of the numbers.
    Sum,
    /// The least number or date.
    Min,
    /// The greatest number or date.
    Max,
}

impl MetricKind {
    /// The word for it.
    pub fn word(self) -> &'static str
        ensures { result.now ≡ word_of self }
    {
        match self {
            MetricKind::Count => "count",
            MetricKind::Sum => "sum",
            MetricKind::Min => "min",
            MetricKind::Max => "max",
        }
    }
}

/// A metric of a field.
#[derive(Clone, Copy, Debug, PartialEq, Eq)]
pub struct Metric<'a> {
    pub kind: MetricKind,
    pub field: &'a str,
}

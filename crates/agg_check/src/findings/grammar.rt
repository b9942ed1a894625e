//! The grammar of headers and documents: what each member has to be.

/// What a value has to be.
#[derive(Clone, Copy)]
pub enum Form {
    Text,
    Texts,
    /// The name of a field that the request reads.
    Field,
    Flag,
    /// A whole number within these, both taken.
    Whole(i128, i128),
    /// One of these words.
    Word(&'static [&'static str]),
    /// One of these words, or null.
    WordOrNull(&'static [&'static str]),
    /// The text of an interval of dates, or null.
    FixedInterval,
    /// The text of an offset of dates, or null.
    Offset,
    /// The text of an after key.
    Key,
    /// The text of an after key that isn't null.
    KeyOfValue,
    /// The text of an after key that isn't null, or null in place of the text.
    KeyOfValueOrNull,
    Address,
    Null,
    /// What is known, and not read.
    LeftOut,
    /// A member of each bucket, whose name none below may have.
    Taken,
    Object(Shape),
    Objects(Shape),
    /// A value of a document.
    Value,
    /// A value of a document, or an array of these.
    Values,
}

/// When a member has to be there.
#[derive(Clone, Copy, PartialEq, Eq)]
pub enum Need {
    Required,
    Optional,
    /// Exactly one of these is there: it tells the kind.
    Kind,
    /// Exactly one of these is there: it tells a kind that has none of `aggs`.
    Leaf,
    /// At most one of these is there.
    Lower,
    /// At most one of these is there.
    Upper,
}

/// A member that an object may have: its name, what it has to be, and when it has to be there.
pub type Member = (&'static str, Form, Need);

/// What other members an object may have.
#[derive(Clone, Copy)]
pub enum Others {
    Refused,
    /// Other members are read past.
    PassedOver,
    /// Each is of this form, whatever its name.
    Each(Form),
    /// There is exactly one, of this form.
    One(Form),
}

/// How objects are made.
#[derive(Clone, Copy)]
pub enum Shape {
    Header,
    Request,
    Below,
    Aggregation,
    Composite,
    After,
    Source,
    SourceKind,
    Terms,
    Histogram,
    DateHistogram,
    Metric,
    Filter,
    Query,
    NoMembers,
    Term,
    Range,
    Exists,
    Boolean,
    Document,
    TypedValue,
}

const U32: Form = Form::Whole(0, 4_294_967_295);

const U64: Form = Form::Whole(0, 18_446_744_073_709_551_615);

const FIELD: Member = ("field", Form::Field, Need::Required);

const ORDER: Member = ("order", Form::Word(&["asc", "desc"]), Need::Optional);

const MISSING_BUCKET: Member = ("missing_bucket", Form::Flag, Need::Optional);

const MISSING_ORDER: Member = (
    "missing_order",
    Form::Word(&["default", "first", "last"]),
    Need::Optional,
);

const HEADER: &[Member] = &[
    ("request", Form::Object(Shape::Request), Need::Required),
    ("name", Form::Text, Need::Required),
    ("schema", Form::Texts, Need::Required),
    ("query", Form::Object(Shape::Query), Need::Optional),
    ("memory_limit", U64, Need::Optional),
    ("bucket_limit", U32, Need::Optional),
];

const BELOW: &[Member] = &[
    ("key", Form::Taken, Need::Optional),
    ("doc_count", Form::Taken, Need::Optional),
];

const AGGREGATION: &[Member] = &[
    ("aggs", Form::Object(Shape::Below), Need::Optional),
    ("composite", Form::Object(Shape::Composite), Need::Kind),
    ("filter", Form::Object(Shape::Filter), Need::Kind),
    ("value_count", Form::Object(Shape::Metric), Need::Leaf),
    ("max", Form::Object(Shape::Metric), Need::Leaf),
    ("min", Form::Object(Shape::Metric), Need::Leaf),
    ("sum", Form::Object(Shape::Metric), Need::Leaf),
    ("avg", Form::LeftOut, Need::Leaf),
    ("stats", Form::LeftOut, Need::Leaf),
    ("extended_stats", Form::LeftOut, Need::Leaf),
    ("percentiles", Form::LeftOut, Need::Leaf),
    ("cardinality", Form::LeftOut, Need::Leaf),
    ("terms", Form::LeftOut, Need::Kind),
    ("range", Form::LeftOut, Need::Kind),
    ("histogram", Form::LeftOut, Need::Kind),
    ("date_histogram", Form::LeftOut, Need::Kind),
    ("top_hits", Form::LeftOut, Need::Leaf),
];

const COMPOSITE: &[Member] = &[
    ("sources", Form::Objects(Shape::Source), Need::Required),
    ("size", Form::Whole(1, 4_294_967_295), Need::Required),
    ("after", Form::Object(Shape::After), Need::Optional),
];

const SOURCE_KIND: &[Member] = &[
    ("terms", Form::Object(Shape::Terms), Need::Kind),
    ("histogram", Form::Object(Shape::Histogram), Need::Kind),
    (
        "date_histogram",
        Form::Object(Shape::DateHistogram),
        Need::Kind,
    ),
];

const MIN: Member = ("min", Form::KeyOfValueOrNull, Need::Optional);

const TERMS: &[Member] = &[FIELD, ORDER, MISSING_BUCKET, MISSING_ORDER, MIN];

const HISTOGRAM: &[Member] = &[
    FIELD,
    (
        "interval",
        Form::Whole(1, 9_223_372_036_854_775_807),
        Need::Required,
    ),
    ORDER,
    MISSING_BUCKET,
    MISSING_ORDER,
    MIN,
];

const DATE_HISTOGRAM: &[Member] = &[
    FIELD,
    ("fixed_interval", Form::FixedInterval, Need::Optional),
    (
        "calendar_interval",
        Form::WordOrNull(&["year", "month", "week"]),
        Need::Optional,
    ),
    ("offset", Form::Offset, Need::Optional),
    ORDER,
    MISSING_BUCKET,
    MISSING_ORDER,
    MIN,
];

const METRIC: &[Member] = &[FIELD, ("missing", Form::Null, Need::Optional)];

const FILTER: &[Member] = &[
    ("builder", Form::Word(&["any_field"]), Need::Kind),
    ("all", Form::Object(Shape::NoMembers), Need::Kind),
    ("empty", Form::Object(Shape::NoMembers), Need::Kind),
    ("term", Form::Object(Shape::Term), Need::Kind),
    ("range", Form::Object(Shape::Range), Need::Kind),
    ("exists", Form::Object(Shape::Exists), Need::Kind),
    ("bool", Form::Object(Shape::Boolean), Need::Kind),
];

const QUERY: &[Member] = &[
    ("all", Form::Object(Shape::NoMembers), Need::Kind),
    ("empty", Form::Object(Shape::NoMembers), Need::Kind),
    ("term", Form::Object(Shape::Term), Need::Kind),
    ("range", Form::Object(Shape::Range), Need::Kind),
    ("exists", Form::Object(Shape::Exists), Need::Kind),
    ("bool", Form::Object(Shape::Boolean), Need::Kind),
];

const TERM: &[Member] = &[FIELD, ("value", Form::KeyOfValue, Need::Required)];

const RANGE: &[Member] = &[
    FIELD,
    ("gt", Form::KeyOfValue, Need::Lower),
    ("gte", Form::KeyOfValue, Need::Lower),
    ("lt", Form::KeyOfValue, Need::Upper),
    ("lte", Form::KeyOfValue, Need::Upper),
];

const EXISTS: &[Member] = &[FIELD];

const BOOLEAN: &[Member] = &[
    ("must", Form::Objects(Shape::Query), Need::Optional),
    ("should", Form::Objects(Shape::Query), Need::Optional),
    ("must_not", Form::Objects(Shape::Query), Need::Optional),
];

const TYPED_VALUE: &[Member] = &[
    (
        "dt",
        Form::Whole(-9_223_372_036_854_775_808, 9_223_372_036_854_775_807),
        Need::Kind,
    ),
    ("ip", Form::Address, Need::Kind),
];

impl Shape {
    /// The members with a meaning of their own: what each has to be, and when it has to be there.
    pub fn members(self) -> &'static [Member] {
        match self {
            Shape::Header => HEADER,
            Shape::Below => BELOW,
            Shape::Aggregation => AGGREGATION,
            Shape::Composite => COMPOSITE,
            Shape::SourceKind => SOURCE_KIND,
            Shape::Terms => TERMS,
            Shape::Histogram => HISTOGRAM,
            Shape::DateHistogram => DATE_HISTOGRAM,
            Shape::Metric => METRIC,
            Shape::Filter => FILTER,
            Shape::Query => QUERY,
            Shape::Term => TERM,
            Shape::Range => RANGE,
            Shape::Exists => EXISTS,
            Shape::Boolean => BOOLEAN,
            Shape::TypedValue => TYPED_VALUE,
            _ => &[],
        }
    }

    /// Whether some of these members tells the kind.
    pub fn has_kinds(self) -> bool {
        self.members().iter().any(|member| member.2 == Need::Kind)
    }

    /// What other members an object of this shape may have.
    pub fn others(self) -> Others {
        match self {
            Shape::Request | Shape::Below => Others::Each(Form::Object(Shape::Aggregation)),
            Shape::After => Others::Each(Form::Key),
            Shape::Document => Others::Each(Form::Values),
            Shape::Source => Others::One(Form::Object(Shape::SourceKind)),
            Shape::Composite
            | Shape::Terms
            | Shape::Histogram
            | Shape::DateHistogram
            | Shape::Metric => Others::PassedOver,
            _ => Others::Refused,
        }
    }
}

//! The grammars of what `--by`, `--where`, `--date` and `--decimal` take, over borrowed texts, and
//! the metrics of fields.
pub(crate) mod by;
pub(crate) mod condition;
pub(crate) mod cut;
pub(crate) mod date_field;
pub(crate) mod decimal_field;
pub(crate) mod metric;

pub use by::{BySpec, BySpecError, Missing, read_by};
pub use condition::{Condition, ConditionError, Test, read_condition};
pub use date_field::{DateField, DateFieldError, read_date_field};
pub use decimal_field::{DecimalField, DecimalFieldError, read_decimal_field};
pub use metric::{Metric, MetricKind};

//! The queries of conditions.
ghost use Rattle.std.specs.Prelude.{◌≡◌, ◌∷◌, ◌++◌, [], Ok, IfOk, IfErr, OnOk, not};
ghost use Rattle.agg_segment.specs.storage.Document.{Fields};
ghost use Rattle.peslumok_texts.specs.fields.Values.{text_value};
ghost use Rattle.agg_segment.specs.Query.{holds, matches};
ghost use Rattle.peslumok_texts.specs.words.Condition.{demand, parts};
ghost use Rattle.peslumok_front.specs.grouping.Query.{RefusesCondition, RefusesTest, RefusesText};
ghost use Rattle.peslumok_front.specs.grouping.Query.{bound_at, holds_between, holds_text};
ghost use Rattle.peslumok_front.specs.grouping.Query.{is_one_of, meets, no_bound, passes};
ghost use Rattle.peslumok_front.specs.grouping.Query.{plain_values, truth_of};

use crate::grouping::boolean::{none_of, some_of};
use crate::grouping::error::GroupingError;
use agg_segment::storage::FieldValue;
use agg_segment::{QueryTree, RangeBound};
use agg_values::{ItemList, OutOfMemory, Text};
use peslumok_texts::fields::{FieldType, FieldTypes, ValueError, value_of_text};
use peslumok_texts::words::{Condition, Test};
use std::alloc::Global;

/// The query of one condition.
pub(crate) fn tree_of(
    alloc: Global,
    condition: &Condition<'_>,
    types: &FieldTypes,
) -> Result<QueryTree, GroupingError>
    ensures met { IfOk result (λ tree. (document : Fields)
        → matches tree document ≡ meets types.now (parts condition.now) document) }
    ensures cause { IfErr result (RefusesCondition types.now (parts condition.now)) }
{
    let field = Text::copy_of(alloc, condition.field)?;
    let asked = Asked {
        alloc,
        of: types.get(&field),
        field: condition.field,
    };
    asked.tree(condition.test)
}

// A field that is asked about.
#[derive(Clone, Copy)]
struct Asked<'a> {
    alloc: Global,
    field: &'a str,
    of: FieldType,
}

impl Asked<'_> {
    // The query of a test.
    fn tree(&self, test: Test<'_>) -> Result<QueryTree, GroupingError>
        ensures met { IfOk result (λ tree. (document : Fields) → matches tree document
            ≡ passes self.now.of (demand test.entry) self.now.field.now document) }
        ensures cause { IfErr result
            (RefusesTest self.now.of (demand test.entry) self.now.field.now) }
    {
        match test {
            Test::Is(text) => self.equal(text),
            Test::IsNot(text) => self.unequal(text),
            Test::Below(text) => self.below(text, End::Without),
            Test::AtMost(text) => self.below(text, End::With),
            Test::Above(text) => self.above(text, End::Without),
            Test::AtLeast(text) => self.above(text, End::With),
            Test::Exists => Ok(QueryTree::Exists {
                field: self.name()?,
            }),
        }
    }

    // The value that a text is in the field.
    fn value(&self, text: &str) -> Result<FieldValue, GroupingError>
        ensures value { IfOk result (λ value. text_value self.now.of text.now ≡ Ok value) }
        ensures cause { IfErr result (RefusesText self.now.of self.now.field.now text.now) }
    {
        match value_of_text(self.alloc, text, self.of) {
            Ok(value) => Ok(value),
            Err(ValueError::OutOfMemory) => Err(GroupingError::OutOfMemory),
            Err(why) => Err(GroupingError::Value {
                field: self.name()?,
                value: Text::copy_of(self.alloc, text)?,
                why,
            }),
        }
    }

    fn name(&self) -> Result<Text, OutOfMemory>
        ensures { IfOk result (λ name. name ≡ self.now.field.now) }
    {
        Text::copy_of(self.alloc, self.field)
    }

    fn term(&self, value: FieldValue) -> Result<QueryTree, OutOfMemory>
        ensures { IfOk result (λ tree. tree ≡ QueryTree.Term self.now.field.now value) }
    {
        Ok(QueryTree::Term {
            field: self.name()?,
            value,
        })
    }

    // The query of what a text means.
    fn equal(&self, text: &str) -> Result<QueryTree, GroupingError>
        ensures met { IfOk result (λ tree. (document : Fields) → matches tree document
            ≡ holds_text self.now.of text.now self.now.field.now document) }
        ensures cause { IfErr result (RefusesText self.now.of self.now.field.now text.now) }
    {
        let value = self.value(text)?;
        match self.of {
            FieldType::Plain => Ok(self.plain(value, text)?),
            _ => Ok(self.term(value)?),
        }
    }

    // The query of a value, the very text, and the truth value whose word it is.
    fn plain(&self, value: FieldValue, text: &str) -> Result<QueryTree, OutOfMemory>
        ensures { IfOk result (λ tree. (document : Fields) → matches tree document
            ≡ holds (is_one_of (value ∷ plain_values text.now)) self.now.field.now document) }
    {
        let mut should = ItemList::new(self.alloc);
        self.push_term(&mut should, value)?;
        self.push_term(
            &mut should,
            FieldValue::Str(Text::copy_of(self.alloc, text)?),
        )?;
        let Some(truth) = truth_of(text) else {
            return Ok(some_of(self.alloc, should));
        };
        self.push_term(&mut should, FieldValue::Bool(truth))?;
        Ok(some_of(self.alloc, should))
    }

    // Appends the query of a value.
    fn push_term(
        &self,
        trees: &mut ItemList<QueryTree>,
        value: FieldValue,
    ) -> Result<(), OutOfMemory>
        ensures { OnOk result
            (trees.new ≡ trees.old ++ QueryTree.Term self.now.field.now value ∷ []) }
    {
        let tree = self.term(value)?;
        trees.push(tree)
    }

    // The query of what does not hold what a text means.
    fn unequal(&self, text: &str) -> Result<QueryTree, GroupingError>
        ensures met { IfOk result (λ tree. (document : Fields) → matches tree document
            ≡ not (holds_text self.now.of text.now self.now.field.now document)) }
        ensures cause { IfErr result (RefusesText self.now.of self.now.field.now text.now) }
    {
        let equal = self.equal(text)?;
        Ok(none_of(self.alloc, equal)?)
    }

    // The query of the values below a text's, with that value or without it.
    fn below(&self, text: &str, end: End) -> Result<QueryTree, GroupingError>
        ensures met { IfOk result (λ tree. (document : Fields) → matches tree document
            ≡ holds_between no_bound (bound_at end) (text_value self.now.of text.now)
            self.now.field.now document) }
        ensures cause { IfErr result (RefusesText self.now.of self.now.field.now text.now) }
    {
        let value = self.value(text)?;
        Ok(QueryTree::Range {
            field: self.name()?,
            lower: RangeBound::Unbounded,
            upper: end.at(value),
        })
    }

    // The query of the values above a text's, with that value or without it.
    fn above(&self, text: &str, end: End) -> Result<QueryTree, GroupingError>
        ensures met { IfOk result (λ tree. (document : Fields) → matches tree document
            ≡ holds_between (bound_at end) no_bound (text_value self.now.of text.now)
            self.now.field.now document) }
        ensures cause { IfErr result (RefusesText self.now.of self.now.field.now text.now) }
    {
        let value = self.value(text)?;
        Ok(QueryTree::Range {
            field: self.name()?,
            lower: end.at(value),
            upper: RangeBound::Unbounded,
        })
    }
}

// Whether a range has the value at its end.
#[derive(Clone, Copy)]
enum End {
    With,
    Without,
}

impl End {
    fn at(self, value: FieldValue) -> RangeBound
        ensures { result ≡ bound_at self value }
    {
        match self {
            End::With => RangeBound::Included(value),
            End::Without => RangeBound::Excluded(value),
        }
    }
}

/// The truth value of a word.
#[tactic(auto, using(peslumok_texts::proofs::lemmas::words::Words::other))]
pub(crate) fn truth_of(text: &str) -> Option<bool>
    ensures { result ≡ truth_of text.now }
{
    match text {
        "true" => Some(true),
        "false" => Some(false),
        _ => None,
    }
}

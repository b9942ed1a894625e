//! The members of an object that are asked for.
ghost use Rattle.std.specs.Prelude.{◌≡◌, option_map};
ghost use Rattle.json.specs.Value.{value_view};
ghost use Rattle.peslumok_records.specs.held.Asked.{IsCut};
ghost use Rattle.peslumok_records.specs.objects.Objects.{member_at as at_path};
ghost use Rattle.peslumok_records.specs.objects.Objects.{member_of as of_field};

use crate::held::AskedField;
use agg_values::Text;
use json::Value;

/// The member of a field: the one of its very name, or else the one at the end of its path.
pub fn member_of<'v, 'a>(object: &'v Value<'a>, field: &AskedField) -> Option<&'v Value<'a>>
    requires { IsCut field.now }
    ensures { option_map (λ v. value_view v.now) result
        ≡ of_field field.now (value_view object.now) }
{
    match object.get(field.name.as_str()) {
        Some(member) => Some(member),
        None => member_at(object, field.path.as_slice()),
    }
}

// The member at the end of a path.
fn member_at<'v, 'a>(object: &'v Value<'a>, path: &[Text]) -> Option<&'v Value<'a>>
    ensures { option_map (λ v. value_view v.now) result ≡ at_path path.now (value_view object.now) }
{
    match path {
        [] => Some(object),
        [name, rest @ ..] => member_at(object.get(name.as_str())?, rest),
    }
}

//! Names by their places.

ghost use Rattle.std.specs.Prelude.{◌≡◌, [], map, slice_index_or, string_bytes};

/// The name at a place; none past their end.
pub(crate) fn name_at(names: &[String], at: usize) -> &str
    ensures { result.now ≡ slice_index_or (map string_bytes names.now) at [] }
{
    match names.get(at) {
        Some(name) => name.as_str(),
        None => "",
    }
}

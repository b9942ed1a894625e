//! What holds of the documents of a text, as their definition says it.
ghost use Rattle.std.specs.Prelude.{◌≡◌, ℕ, List};
ghost use Rattle.agg_segment.specs.storage.Document.{Fields};
ghost use Rattle.peslumok_records.specs.declared.held.asked.AskedField.{AskedField};
ghost use Rattle.peslumok_records.specs.records.Formats.{AreDocumentsOf};
ghost use Rattle.peslumok_texts.specs.declared.formats.RecordFormat.{RecordFormat};

/// A text has at most one list of documents in a format.
pub fn a_text_has_one_list_of_documents()
    ensures is_sole { (format : RecordFormat) (asked : List AskedField) (bytes : List ℕ)
        (first second : List Fields) → AreDocumentsOf format asked bytes first
        → AreDocumentsOf format asked bytes second → first ≡ second }
{}

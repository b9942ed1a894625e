//! What holds of the requests of groupings.
ghost use Rattle.std.specs.Prelude.{◌≡◌, [], Ok};
ghost use Rattle.agg_values.specs.Names.{Named};
ghost use Rattle.agg_segment.specs.declared.query.QueryTree.{QueryTree};
ghost use Rattle.agg_request_tree.specs.Request.{Request, builders_of, with_builders};
ghost use Rattle.agg_request_tree.specs.Source.{name_of};
ghost use Rattle.agg_request_tree.specs.declared.source.CompositeAggregationSource as sources;
ghost use Rattle.peslumok_texts.specs.declared.fields.field_type.FieldType.{FieldType};
ghost use Rattle.peslumok_texts.specs.words.By.{Parts};
ghost use Rattle.peslumok_front.specs.grouping.Request.{IsRequestOf};
ghost use Rattle.peslumok_front.specs.grouping.Sources.{column_name, source_asked};
ghost use Rattle.peslumok_front.specs.declared.grouping.grouping.Grouping.{Grouping};
ghost use Rattle.peslumok_front.specs.declared.grouping.request.AskedPage.{AskedPage};

/// The request of a grouping has no builder, so it asks the same whatever builders make.
pub fn groupings_have_no_builders<B>()
    ensures none { (grouping : Grouping) (page : AskedPage) (request : Request B)
        → IsRequestOf grouping page request
        → builders_of request ≡ [] }
    ensures same { (grouping : Grouping) (page : AskedPage) (request : Request B)
        → (makes others : B → QueryTree)
        → IsRequestOf grouping page request
        → with_builders makes request ≡ with_builders others request }
{}

/// Each source that is asked for is called as the column of its keys.
pub fn sources_are_called_as_their_columns()
    ensures { (types : Named FieldType) (by : Parts)
        (source : sources.CompositeAggregationSource)
        → source_asked types by ≡ Ok source
        → name_of source ≡ column_name by }
{}

//! Laws of what is kept.
ghost use Rattle.agg_composite.specs.buckets.Laws.{
  CutsCompose,
  HaveTheCut,
  StayRight,
  TuplesCompose,
  VisitsCompose,
  VisitsCut,
};

/// A new node is right for no visits, and stays so where parents are prepared or begun.
pub fn nodes_stay_right<S: Ord>()
    ensures { StayRight S.cmp }
{}

/// Visits in a row are visits of all.
pub fn visits_compose<S: Ord>()
    ensures visits { VisitsCompose S.cmp }
    ensures tuples { TuplesCompose S.cmp }
{}

/// The lowest groups of lists in a row, as many as fit, need of the first list its lowest alone.
pub fn cuts_compose<S: Ord>()
    ensures { CutsCompose S.cmp }
{}

/// Buckets that are right for visits are the lowest groups of their tuples, parent by parent, and
/// visits make of them what the tuples that were there, as often as counted, make with the new
/// ones.
pub fn buckets_have_the_cut<S: Ord>()
    ensures pages { HaveTheCut S.cmp }
    ensures visits { VisitsCut S.cmp }
{}

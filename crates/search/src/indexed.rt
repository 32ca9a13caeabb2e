// A plan with an index of its ducts.
ghost use Rattle.std.specs.Prelude.{◌≡◌, take};
ghost use Rattle.plan.specs.Fields.{plan_of};
ghost use Rattle.search.specs.Index.{HeadsTo, LinksTo};

use crate::index::Index;
use plan::plans::Plan;

// By the index a search goes through the ducts of one pit alone.
#[derive(Clone, Copy)]
pub struct IndexedPlan {
    pub plan: Plan,
    pub(crate) index: Index,
    ghost starts: { HeadsTo (take plan.count plan.ducts) plan.count index.heads },
    ghost chained: { LinksTo (take plan.count plan.ducts) plan.count index.links },
}

impl IndexedPlan {
    // The plan with its index.
    pub fn new(plan: &Plan) -> IndexedPlan
        ensures { plan_of result.plan ≡ plan_of plan.now }
    {
        index(plan)
    }
}

// The index, made duct by duct.
fn index(plan: &Plan) -> IndexedPlan
    ensures { plan_of result.plan ≡ plan_of plan.now }
{
    let mut index = Index::new();
    for (i, duct) in plan.ducts().iter().enumerate() {
        // proved to fit: an error of `try_from` could not come
        index.put(i as u16, *duct);
    }
    IndexedPlan { plan: *plan, index }
}

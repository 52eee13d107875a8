//! Examples of runs with plans.
ghost use Rattle.cpi_office.specs.PlanExamples.{EachFault, FaultsChangeNothing, FirstFault, PlanStands};
ghost use Rattle.cpi_office.specs.PlanExamples.{PlansAreSeen, PlansByYear, ItemsFirst, PlansOfTheDesk};
ghost use Rattle.cpi_office.specs.PlanExamples.{ReferenceStands, NoFirstReference};

/// Small runs with plans, computed by the definitions: each fault of a plan, a plan that is there already, and a plan
/// that is replaced.
pub fn worked_plans()
    ensures each_fault { EachFault }
    ensures faults_change_nothing { FaultsChangeNothing }
    ensures first_fault { FirstFault }
    ensures plan_stands { PlanStands }
    ensures reference_stands { ReferenceStands }
    ensures no_first_reference { NoFirstReference }
    ensures plans_are_seen { PlansAreSeen }
    ensures plans_by_year { PlansByYear }
    ensures items_first { ItemsFirst }
    ensures plans_of_the_desk { PlansOfTheDesk }
{}

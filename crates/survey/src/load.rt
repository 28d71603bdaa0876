// A state that was never loaded, and loading: of a fresh table, of a stored one, and with a tree drawn by the planner.
ghost use Rattle.std.specs.Prelude.{◌≡◌};
ghost use Rattle.table.specs.Table.{stored_refusal, refusal_as};
ghost use Rattle.spec_machine.specs.Load.{loaded, unloaded, planned_load_refusal, planned_loaded};
ghost use Rattle.spec_machine.specs.Calls.{answered, load_answer, stored_load_answer, planned_load_answer};
ghost use Rattle.survey.specs.View.{of, answer_of};

use super::answer::Answer;
use super::whole::Survey;
use spec_state::Reply;

impl Survey {
    // Of no unit: not well formed, so that every call but load is refused with 10.
    pub fn new() -> Survey
        ensures { of result ≡ unloaded }
    {
        Survey::begun(load_begin::table(0, &[], &[]))
    }

    // Of a fresh table: 4 to 6, 15, 16, 7 to 9, 22. On a refusal the state comes back as given.
    pub fn load(self, units: u16, table: &[u16], levels: &[i16]) -> Answer
        ensures { answer_of result ≡ load_answer
            (record { units = units; words = table.now; levels = levels.now }) (of self) }
    {
        self.load_as(true, units, table, levels)
    }

    // Of a stored table: the same without 22.
    pub fn load_stored(self, units: u16, table: &[u16], levels: &[i16]) -> Answer
        ensures { answer_of result ≡ stored_load_answer
            (record { units = units; words = table.now; levels = levels.now }) (of self) }
    {
        self.load_as(false, units, table, levels)
    }

    // With a table of parents drawn by the planner: 4 to 6, 15, 16, 7 to 9, 17, 18, 22.
    pub fn load_planned(self, units: u16, table: &[u16], levels: &[i16], parents: &[u16]) -> Answer
        ensures { answer_of result ≡ planned_load_answer
            (record { units = units; words = table.now; levels = levels.now }) parents.now
            (of self) }
    {
        let refused = load_plan::refusal(units, table, levels, parents);
        if refused != 0 {
            return Answer {
                survey: self,
                reply: Reply::Refused(refused),
            };
        }
        Answer {
            survey: drawn(units, table, levels, parents),
            reply: Reply::Done,
        }
    }

    // Either of the first two.
    fn load_as(self, fresh: bool, units: u16, table: &[u16], levels: &[i16]) -> Answer
        ensures { answer_of result ≡ answered (refusal_as fresh units table.now levels.now)
            (of self) (loaded (record { units = units; words = table.now; levels = levels.now }))
            Reply.Done }
    {
        let refused = table::refusal(fresh, units, table, levels);
        if refused != 0 {
            return Answer {
                survey: self,
                reply: Reply::Refused(refused),
            };
        }
        Answer {
            survey: loaded(units, table, levels),
            reply: Reply::Done,
        }
    }
}

// The state of a table and parents that pass.
fn drawn(units: u16, table: &[u16], levels: &[i16], parents: &[u16]) -> Survey
    requires { planned_load_refusal (record { units = units; words = table.now; levels = levels.now }) parents.now
        ≡ 0 }
    ensures { of result ≡ planned_loaded
        (record { units = units; words = table.now; levels = levels.now }) parents.now }
{
    let mut survey = loaded(units, table, levels);
    let plan = load_begin::plan(parents);
    survey.plan = plan;
    survey
}

// The state of a table that passes.
fn loaded(units: u16, table: &[u16], levels: &[i16]) -> Survey
    requires { stored_refusal units table.now levels.now ≡ 0 }
    ensures { of result ≡ loaded (record {
      units = units;
      words = table.now;
      levels = levels.now;
    }) }
{
    Survey::begun(load_begin::table(units, table, levels))
}

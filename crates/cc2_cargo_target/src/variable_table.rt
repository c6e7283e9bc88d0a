//! A table of programs whose answers depend on variables.
ghost use Rattle.std.specs.Prelude.{◌≡◌, ◌<◌, [], List, MatchOption, None, OnErr, OnOk, Some, length, map};
ghost use Rattle.std.specs.List.{HoldsAt};
ghost use Rattle.cc2_base.specs.ToldPrograms.{answers_of};
ghost use Rattle.cc2_cargo_settings.specs.EnvVariables.{EnvVariable, variable_view, variables_view};
ghost use Rattle.cc2_cargo_target.specs.VariableTables.{answers_for, answers_in, answers_now, answers_under, first_of_two, listed_answers, other_answers, same_variables, table_runs, variables_now};

use crate::with_variables::WithVariables;
use cc2_base::programs::{ProgramTable, Programs, RunAnswer};
use cc2_error::error::NoMemory;
use std::alloc::Global;

// Programs that answer under these variables.
#[derive(Drop)]
struct Entry {
    variables: Vec<(String, String)>,
    programs: ProgramTable,
}

/// A table of programs in memory whose answers depend on the variables under which they run. Other programs answer under
/// variables that are not in it. Variables are the same where names and texts are, in the same order.
#[derive(Drop)]
pub struct VariableTable {
    entries: Vec<Entry>,
    otherwise: ProgramTable,
    variables: Vec<(String, String)>,
    count: u64,
}

impl VariableTable {
    /// These programs under all variables, with none set and no run seen. It takes no memory.
    pub fn new(alloc: Global, programs: ProgramTable) -> VariableTable
        ensures listed { (vs : List EnvVariable) → listed_answers result vs ≡ None }
        ensures others { other_answers result ≡ answers_of programs }
        ensures variables { variables_now result ≡ [] }
        ensures count { table_runs result ≡ 0 }
    {
        VariableTable {
            entries: Vec::new(alloc),
            otherwise: programs,
            variables: Vec::new(alloc),
            count: 0,
        }
    }

    /// Lets these programs answer under these variables, unless an earlier call named the same: the first counts. It holds
    /// for the variables that are set too.
    ///
    /// # Errors
    /// `NoMemory` where the table can't grow; it is then as it was.
    pub fn add(
        &mut self,
        variables: Vec<(String, String)>,
        programs: ProgramTable,
    ) -> Result<(), NoMemory>
        ensures listed { OnOk result ((vs : List EnvVariable) → listed_answers self.new vs
            ≡ first_of_two (listed_answers self.old vs)
            (answers_for (variables_view variables) (answers_of programs) vs)) }
        ensures refused { OnErr result ((vs : List EnvVariable) →
            listed_answers self.new vs ≡ listed_answers self.old vs) }
        ensures others { other_answers self.new ≡ other_answers self.old }
        ensures variables { variables_now self.new ≡ variables_now self.old }
        ensures count { table_runs self.new ≡ table_runs self.old }
    {
        self.entries.push(Entry {
            variables,
            programs,
        })?;
        Ok(())
    }

    /// How many runs the table has seen, refused ones among them.
    pub fn runs(&self) -> u64
        ensures { result ≡ table_runs self.now }
    {
        self.count
    }
}

// The place of the first entry for these variables.
fn place_of(entries: &[Entry], variables: &[(String, String)]) -> Option<usize>
    ensures { MatchOption result
        (answers_in entries.now (map variable_view variables.now) ≡ None)
        (λ i. (i < length entries.now) × HoldsAt (λ e.
        answers_in entries.now (map variable_view variables.now) ≡ Some (answers_of e.programs))
        entries.now i) }
{
    for (i, entry) in entries.iter().enumerate() {
        if is_same(entry.variables.as_slice(), variables) {
            return Some(i);
        }
    }
    None
}

// Whether they are the same names with the same texts, in the same order.
fn is_same(variables: &[(String, String)], others: &[(String, String)]) -> bool
    ensures { result ≡ same_variables (map variable_view variables.now)
        (map variable_view others.now) }
{
    variables == others
}

impl Programs for VariableTable {
    ghost told = { λ t answers. answers ≡ answers_now t };

    ghost runs = { λ t. table_runs t };

    fn run(
        &mut self,
        alloc: Global,
        program: &str,
        args: &[String],
    ) -> Result<RunAnswer, NoMemory> {
        self.count = self.count.saturating_add(1);
        match place_of(self.entries.as_slice(), self.variables.as_slice()) {
            Some(place) => self.entries[place].programs.run(alloc, program, args),
            None => self.otherwise.run(alloc, program, args),
        }
    }
}

impl WithVariables for VariableTable {
    ghost told_with = { λ t own. (variables : List EnvVariable) →
        own variables ≡ answers_under t variables };

    fn set_variables(&mut self, variables: Vec<(String, String)>) {
        self.variables = variables;
    }
}

ghost use Rattle.std.specs.Prelude.{◌≡◌, IfOk, vec_len};
ghost use Rattle.tables.specs.Listed.{listed};
ghost use Rattle.tables.specs.Rowed.{called, rows};

use crate::table::Table;
use crate::task::Task;
use names::Name;
use std::alloc::AllocError;

// The names and the tasks are copied apart, each with its clause, so that copying a table needs no proof of its own.
fn copy_names(names: &Vec<Name>) -> Result<Vec<Name>, AllocError>
    ensures value { IfOk result (λ copy. called copy.items ≡ called names.now.items) }
    ensures len { IfOk result (λ copy. vec_len copy ≡ vec_len names.now) }
{
    names.clone()
}

fn copy_tasks(tasks: &Vec<Task>) -> Result<Vec<Task>, AllocError>
    ensures value { IfOk result (λ copy. rows copy.items ≡ rows tasks.now.items) }
    ensures len { IfOk result (λ copy. vec_len copy ≡ vec_len tasks.now) }
{
    tasks.clone()
}

// A copy has the rows of its table. No derive writes it for a struct with ghost fields.
impl Clone for Table {
    ghost is_clone = { λ t u. listed u ≡ listed t };

    fn clone(&self) -> Result<Table, AllocError> {
        Ok(Table {
            resources: copy_names(&self.resources)?,
            tasks: copy_tasks(&self.tasks)?,
        })
    }
}

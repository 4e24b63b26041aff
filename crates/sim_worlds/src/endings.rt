//! How the tasks of variables end, as a record keeps it.

use crate::names::Names;
use crate::texts::put_outcome;
use crate::variables::{TaskKey, Variables};
use crate::{Named, PlayFault};
use sim_happenings::{Happening, ScriptRecord};
use sp_world::Output;
use std::alloc::Global;

// A space, with what tells how spaces are called and how their tasks ended.
#[derive(Drop)]
pub(crate) struct Scene<'a, S> {
    pub alloc: Global,
    pub number: usize,
    pub space: &'a S,
    pub names: &'a Names,
    pub variables: &'a Variables,
}

// Keeps how the tasks ended that outputs of a space tell, of those that have variables, which have their outcomes.
pub(crate) fn keep_endings<S: Named>(
    record: &mut ScriptRecord,
    scene: &Scene<'_, S>,
    outputs: &[Output],
) -> Result<(), PlayFault> {
    if !record.is_traced() {
        return Ok(());
    }
    for output in outputs {
        if let Output::Ended(task, _) = output {
            keep_ending(record, scene, *task)?;
        }
    }
    Ok(())
}

fn keep_ending<S: Named>(
    record: &mut ScriptRecord,
    scene: &Scene<'_, S>,
    task: u64,
) -> Result<(), PlayFault> {
    let key = TaskKey {
        space: scene.number,
        task,
    };
    let Some(variable) = scene.variables.of_task(&key) else {
        return Ok(());
    };
    let mut line = Vec::new(scene.alloc);
    put_outcome(
        &mut line,
        scene.space,
        scene.names,
        &variable.name,
        &variable.outcome,
    )?;
    let text = match str::from_utf8(&line) {
        Ok(text) => String::from_str(scene.alloc, text.trim_end())?,
        Err(_) => String::from_str(scene.alloc, &variable.name)?,
    };
    record.add(Happening::Ended {
        space: scene.number,
        text,
    })?;
    Ok(())
}

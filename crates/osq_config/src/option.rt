//! The options.

ghost use Rattle.std.specs.Prelude.{◌≡◌, ◌∷◌, [], Some, bytes_eq, codes};
ghost use Rattle.serde_json.specs.Find.{get};
ghost use Rattle.serde_json.specs.View.{view};
ghost use Rattle.osq_config.specs.Faults.{fault_at, fault_of};
ghost use Rattle.osq_config.specs.Kinds.{options_kind, word};
ghost use Rattle.osq_config.specs.Reads.{Reads};
ghost use Rattle.osq_config.specs.Values.{text_in};

use crate::error::ConfigError;
use crate::field::{Bounds, check_object, number_at, out_of_range_at, wrong_shape_at};
use serde_json::Value as Json;
use std::alloc::Global;

/// Seconds after which an event may expire.
const EVENTS_EXPIRY: Bounds = Bounds {
    least: 1,
    most: 4294967295,
    default: 3600,
};

/// Events of a table that are kept.
const EVENTS_MAX: Bounds = Bounds {
    least: 1,
    most: 1000000,
    default: 50000,
};

/// The options of a configuration.
#[derive(Drop)]
pub struct Options {
    /// Seconds after which an event may expire, from 1 to 4294967295; 3600 where the key is missing.
    pub events_expiry: u64,
    /// How many events of a table are kept, from 1 to 1000000; 50000 where the key is missing.
    pub events_max: u64,
    /// The key `result_form` is `batch`; it is `event` where it is missing.
    pub is_batch_form: bool,
}

impl Options {
    ghost use Rattle.osq_config.specs.Values.{options_of};

    /// The options of a document.
    /// WrongShape where they are no object; and the faults of their keys.
    pub fn of(alloc: Global, document: &Json) -> Result<Options, ConfigError>
        ensures { Reads (fault_at options_kind [] (codes "options") (view document.now))
            (options_of (get (codes "options") (view document.now))) result }
    {
        match document.get("options") {
            Some(options) => Options::read(alloc, "options", options),
            None => Ok(Options {
                events_expiry: EVENTS_EXPIRY.default,
                events_max: EVENTS_MAX.default,
                is_batch_form: false,
            }),
        }
    }

    fn read(alloc: Global, path: &str, options: &Json) -> Result<Options, ConfigError>
        ensures { Reads (fault_of options_kind path.now (view options.now))
            (options_of (Some (view options.now))) result }
    {
        check_object(alloc, path, options)?;
        let events_expiry = number_at(alloc, path, options, "events_expiry", EVENTS_EXPIRY)?;
        let events_max = number_at(alloc, path, options, "events_max", EVENTS_MAX)?;
        let is_batch_form = is_batch_at(alloc, path, options, "result_form")?;
        Ok(Options {
            events_expiry,
            events_max,
            is_batch_form,
        })
    }
}

/// Whether the form of a key is `batch` and not `event`; a missing one is `event`.
fn is_batch_at(alloc: Global, path: &str, object: &Json, key: &str) -> Result<bool, ConfigError>
    ensures { Reads
        (fault_at (word (codes "event" ∷ codes "batch" ∷ [])) path.now key.now (view object.now))
        (bytes_eq (text_in (get key.now (view object.now))) (codes "batch")) result }
{
    let Some(value) = object.get(key) else {
        return Ok(false);
    };
    let Some(form) = value.as_str() else {
        return Err(wrong_shape_at(alloc, path, key));
    };
    if form == "batch" {
        Ok(true)
    } else if form == "event" {
        Ok(false)
    } else {
        Err(out_of_range_at(alloc, path, key))
    }
}

//! Laws of events and of serial runs. Nothing here does anything; what holds is in the contracts.
ghost use Rattle.std.specs.Prelude.{◌≡◌, ◌↔◌, List, Some, ℕ, filter_map, flat_map};
ghost use Rattle.std.specs.Option.{option_map};
ghost use Rattle.ent_tree.specs.declared.declaration.Create.{Create};
ghost use Rattle.ent_tree.specs.declared.script.Statement.{Statement};
ghost use Rattle.ent_semantics.specs.Database.{Database, Environment};
ghost use Rattle.ent_semantics.specs.Entangled.{Valuation};
ghost use Rattle.ent_semantics.specs.Serial.{Operation, Turn, operations_of, read_views, run, script_read_views};
ghost use Rattle.ent_semantics.specs.Serial.{script_run, scripts_read_views, scripts_run};
ghost use Rattle.ent_semantics.specs.Pool.{Posted};
ghost use Rattle.ent_protocol.specs.Begin.{Begins};
ghost use Rattle.ent_protocol.specs.Event.{Reply};
ghost use Rattle.ent_protocol.specs.PoolEvents.{joining};
ghost use Rattle.ent_protocol.specs.State.{State};
ghost use Rattle.ent_examples.specs.Beginning.{BeginsByRow};
ghost use Rattle.ent_examples.specs.Joining.{AreOneButForLabels, IsJoined};
ghost use Rattle.ent_examples.specs.SerialTrace.{AreOperations, effects, kept, left_by, read_view_at, runs_in};
ghost use Rattle.ent_examples.specs.SerialTrace.{script_trace, seen_in, serial_trace, scripts_trace};

/// Beginning a transaction's next statement gives a reply and a state exactly where a row of the table does.
pub fn begin_goes_by_rows<F>()
    ensures { (s : State) (tx : ℕ) (reply : Reply F) (new : State)
        → Begins s tx reply new ↔ BeginsByRow s tx reply new }
{}

/// Where statements are answered together, each member that has one of them, and a grounding for it, is answered by
/// these; all others keep everything but the label of their group. Two members are of one group then exactly where they
/// were before, or both were in groups of members whose statements are answered. This determines the state, but for the
/// labels.
pub fn joint_answers_join_groups()
    ensures joined { (s : State) (asked : List Posted) (groundings : List Valuation)
        → IsJoined s asked groundings (joining s asked groundings) }
    ensures only { (s : State) (asked : List Posted) (groundings : List Valuation) (new : State)
        → IsJoined s asked groundings new
        → AreOneButForLabels (joining s asked groundings) new }
{}

/// A serial run and its read views are read off the serial trace: for the statements of a script, for a script, and for
/// scripts one after the other.
pub fn serial_runs_are_read_off_traces()
    ensures statements { (declared : List Create) (place : ℕ) (operations : List Operation) (database : Database)
        (environment : Environment)
        → run declared operations database environment
        ≡ option_map (left_by database environment)
        (effects (serial_trace declared place operations database environment)) }
    ensures statements_see { (declared : List Create) (tx place : ℕ) (operations : List Operation) (database : Database)
        (environment : Environment)
        → read_views declared tx place operations database environment
        ≡ filter_map (read_view_at tx) (serial_trace declared place operations database environment) }
    ensures script { (declared : List Create) (turn : Turn) (database : Database)
        → script_run declared turn.script turn.oracle database ≡ kept (script_trace declared turn database) }
    ensures script_sees { (declared : List Create) (turn : Turn) (database : Database)
        → script_read_views declared turn database ≡ seen_in (script_trace declared turn database) }
    ensures scripts { (declared : List Create) (turns : List Turn) (database : Database)
        → scripts_run declared turns database ≡ runs_in database (scripts_trace declared turns database) }
    ensures scripts_see { (declared : List Create) (turns : List Turn) (database : Database)
        → scripts_read_views declared turns database ≡ flat_map seen_in (scripts_trace declared turns database) }
{}

/// The oracle answers the entangled statements of a script in order, each once. Too few or too many answers give
/// nothing.
pub fn oracles_answer_in_order()
    ensures { (asked : List Statement) (oracle : List Valuation) (operations : List Operation)
        → (operations_of asked oracle ≡ Some operations) ↔ AreOperations asked oracle operations }
{}

//! Examples of command lines. Nothing of this file runs.
ghost use Rattle.cpi_app.specs.CommandExamples.{Replays, Serves, ServesByKeyFile, Prints, NamesNone, FollowsRules, BreaksRules};

/// Command lines and the values that they give, computed by the definitions. The program never calls it: its clauses
/// show a reader that the definitions say what the documents say.
pub fn worked_commands()
    ensures replays { Replays }
    ensures serves { Serves }
    ensures serves_by_key_file { ServesByKeyFile }
    ensures prints { Prints }
    ensures names_none { NamesNone }
    ensures follows_rules { FollowsRules }
    ensures breaks_rules { BreaksRules }
{}

//! Laws of what the commands put.
ghost use Rattle.deed_words.specs.Setups.{Setup};
ghost use Rattle.deed_words.specs.declared.rule.Rule.{Rule};
ghost use Rattle.deed_json.specs.Replies.{rule_data};
ghost use Rattle.site_console.specs.Logs.{rule_name};
ghost use Rattle.site_console.specs.Refusals.{IsRefusalBy};

/// A log names a rule as the reply does that refuses by it.
pub fn logs_name_rules_as_replies_do()
    ensures { (site : Setup) (broken : Rule) → IsRefusalBy (rule_name broken) (rule_data site broken) }
{}

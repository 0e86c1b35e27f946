// What a verdict does not depend on.
ghost use Rattle.judge.specs.Rightness.{IndependenceLaw};

// Two verdicts are the same where the nodes, the pipes drawn and the values of the valves are.
pub fn verdict_depends_on_drawing_and_values()
    ensures { IndependenceLaw }
{}

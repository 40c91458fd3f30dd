//! The laws of the rule of a step, each as the contract of a function that does nothing.
ghost use Rattle.decompose.specs.Law.{StepLaw, OpenLaw, EnoughLaw};

/// What the rule makes of a branch that fits represents what the branch represents. It parts no branch under whose sets the specification
/// is false.
pub fn rule_keeps_the_law()
    ensures keeps { StepLaw }
    ensures open { OpenLaw }
{}

/// The wants of a branch that fits are settled within as many steps as they weigh.
pub fn settling_ends()
    ensures { EnoughLaw }
{}

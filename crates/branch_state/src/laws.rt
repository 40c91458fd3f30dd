//! The laws of models and branches, each as the contract of a function that does nothing.
ghost use Rattle.branch_state.specs.Laws.{ModelsLaw, ModelsOrderLaw, RootLaw, SingleBranchLaw};

/// The models are the tables that extend the given history and make the specification true. They are in order, each once.
pub fn models_are_the_true_extensions()
    ensures all { ModelsLaw }
    ensures once { ModelsOrderLaw }
{}

/// The root fits, and represents the models.
pub fn root_represents_the_models()
    ensures { RootLaw }
{}

/// The branch of a model's single sets fits, and represents that model alone.
pub fn single_sets_represent_one_model()
    ensures { SingleBranchLaw }
{}

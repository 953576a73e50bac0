use serde_json::Value;

/// Which of the optional members that say how a job is run a bundle has. A member counts whatever it holds, also where it
/// is refused. `parallelism` isn't among them.
#[derive(Clone, Copy)]
pub struct Given {
    pub cluster: bool,
    pub policy: bool,
    pub settings: bool,
    pub script: bool,
    pub schedule: bool,
    pub dag: bool,
}

impl Given {
    ghost use Rattle.std.specs.Prelude.{◌≡◌};
    ghost use Rattle.serde_json.specs.View.{view};
    ghost use Rattle.nemo_bundle.specs.Given.{given_in};

    /// Of a value, which needn't be a bundle: a value that is no object has none.
    pub fn of(value: &Value) -> Given
        ensures { result ≡ given_in (view value.now) }
    {
        Given {
            cluster: value.get("cluster").is_some(),
            policy: value.get("policy").is_some(),
            settings: value.get("settings").is_some(),
            script: value.get("script").is_some(),
            schedule: value.get("schedule").is_some(),
            dag: value.get("dag").is_some(),
        }
    }
}

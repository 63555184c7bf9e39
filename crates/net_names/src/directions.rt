// Which events the environment sends, and which it gets.
ghost use Rattle.std.specs.Prelude.{◌≡◌};
ghost use Rattle.net_names.specs.Scopes.{is_from_env, is_to_env};

use net_reader::RawEnv;

/// Whether the environment sends such an event.
pub fn is_from_env(env: RawEnv) -> bool
    ensures { result ≡ is_from_env env }
{
    matches!(env, RawEnv::FromEnv)
}

/// Whether the environment gets such an event.
pub fn is_to_env(env: RawEnv) -> bool
    ensures { result ≡ is_to_env env }
{
    matches!(env, RawEnv::ToEnv)
}

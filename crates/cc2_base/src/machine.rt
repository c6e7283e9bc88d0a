//! What a caller passes in about a machine: the directory, the environment and the home.
ghost use Rattle.std.specs.Prelude.{◌≡◌, option_map};
ghost use Rattle.cc2_base.specs.Machines.{last_value, variable_of};

use std::fmt;

/// A process's surroundings, passed in as values. Its debug form shows the variables by their names
/// alone, since a value may be a token.
#[derive(Drop)]
pub struct Machine {
    /// The process's current directory, an absolute path: `Config::load` begins there.
    pub current_dir: String,
    /// The variables, each a name and the bytes of its value. Of a name that occurs twice the last
    /// value is used.
    pub env: Vec<(String, Vec<u8>)>,
    /// The user's home directory, if there is one; the programs here take the variable `HOME`.
    pub home: Option<String>,
}

impl fmt::Debug for Machine {
    fn fmt<W: fmt::Write>(&self, f: &mut fmt::Formatter<W>) -> fmt::Result {
        let env = Names {
            env: self.env.as_slice(),
        };
        f.debug_struct("Machine")
            .field("current_dir", &self.current_dir)
            .field("env", &env)
            .field("home", &self.home)
            .finish()
    }
}

// The names of variables, in their order.
#[derive(Clone, Copy)]
struct Names<'a> {
    env: &'a [(String, Vec<u8>)],
}

impl fmt::Debug for Names<'_> {
    fn fmt<W: fmt::Write>(&self, f: &mut fmt::Formatter<W>) -> fmt::Result {
        let mut names = f.debug_list();
        for entry in self.env {
            names.entry(&entry.0);
        }
        names.finish()
    }
}

impl Machine {
    /// The value of a variable, the last one where its name occurs twice; none where it is not set.
    pub fn variable(&self, name: &str) -> Option<&[u8]>
        ensures { option_map (λ value. value.now) result ≡ variable_of self.now name.now }
    {
        env_value(self.env.as_slice(), name)
    }
}

/// The last value of this name; none where the name doesn't occur.
pub fn env_value<'a>(env: &'a [(String, Vec<u8>)], name: &str) -> Option<&'a [u8]>
    ensures { option_map (λ value. value.now) result ≡ last_value env.now name.now }
{
    let mut last = None;
    for entry in env {
        if entry.0.as_str() == name {
            last = Some(entry.1.as_slice());
        }
    }
    last
}

//! Lists at their limits. `~ITEM~COUNT~` is so many items.

pub(crate) const LISTS: &str = "
cpu = [{ jumps = [~[0, 0],~64~] }] => read
cpu = [{ jumps = [~[0, 0],~65~] }] => value 16 1 0
cpu = [{ jumps = [[-1, 0],~[0, 0],~64~] }] => value 16 1 0
source = [{ rating = 1, margin = 0, nominal_khz = 1000, jumps = [~[0, 0],~65~] }] => value 43 1 0
reader = [~{ cpu = 0 },~16~] => read
reader = [~{ cpu = 0 },~17~] => value 19 0 0
source = [~{ rating = 1, margin = 0, nominal_khz = 1000 },~8~] => read
source = [~{ rating = 1, margin = 0, nominal_khz = 1000 },~9~] => value 35 0 0
delay = [~{ ticket = 0, ns = 1 },~1024~] => value 24 2 0
delay = [~{ ticket = 0, ns = 1 },~1025~] => value 23 0 0
cpus = 16;cpu = [~{},~16~] => read
cpus = 17;cpu = [~{},~17~] => value 2 0 0
version = 2;cpus = 64;cpu = [~{},~64~] => read
version = 2;cpus = 64;cpu = [~{},~65~] => value 13 0 0
cpu = [{ script = [~'local',~65536~] }] => read
cpu = [{ script = [~'local',~65537~] }] => value 18 1 0
cpus = 8;cpu = [~{ repeat = 65536, script = ['local'] },~8~] => read
cpus = 9;cpu = [~{ repeat = 65536, script = ['local'] },~9~] => value 18 9 0
cpus = 8;reader = [{ cpu = 0, script = ['local'] }];cpu = [~{ repeat = 65536, script = ['local'] },~8~] => value 22 1 0
cpus = 8;reader = [{ cpu = 0, repeat = 0, script = ['local'] }];cpu = [~{ repeat = 65536, script = ['local'] },~8~] => read
";

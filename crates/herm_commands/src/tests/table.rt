//! Lists of words, each with what they ask for.

/// The words, one space between two of them, and what they ask for: options that are not the default, and then the files or the number.
pub(crate) const TABLE: &str = "run a.hm => run a.hm
run a.hm b.hm => run a.hm b.hm
run b.hm a.hm => run b.hm a.hm
run a.hm b.hm c.hm => run a.hm b.hm c.hm
run => refused
run --summary => refused
run --summary a.hm => run summary a.hm
run a.hm --summary => run summary a.hm
run a.hm --summary b.hm => run summary a.hm b.hm
run --summary --summary a.hm => refused
run --summary a.hm --summary => refused
run --summary=true a.hm => refused
run --summary= a.hm => refused
run --summary=false a.hm => refused
run --journal a.hm => run journal a.hm
run a.hm --journal => run journal a.hm
run a.hm --journal b.hm => run journal a.hm b.hm
run --journal => refused
run --journal a.hm --journal => refused
run --journal= a.hm => refused
run --journal --journal a.hm => refused
run --journal=true a.hm => refused
run --journal --summary a.hm => refused
run --summary --journal a.hm => refused
run --summary a.hm --journal => refused
run --journal a.hm --summary => refused
run --journal -- --summary => run journal --summary
run --summary -- --journal => run summary --journal
run a.hm --steps 3 => run steps=3 a.hm
run --steps 3 a.hm => run steps=3 a.hm
run --steps=3 a.hm b.hm => run steps=3 a.hm b.hm
run a.hm --steps=3 b.hm => run steps=3 a.hm b.hm
run a.hm --steps 3 b.hm => run steps=3 a.hm b.hm
run --steps 1 a.hm => run steps=1 a.hm
run --steps 1000000 a.hm => run steps=1000000 a.hm
run --steps 1000001 a.hm => refused
run --steps 0 a.hm => refused
run --steps 100000 a.hm => run a.hm
run --steps 0000003 a.hm => run steps=3 a.hm
run --steps 00000003 a.hm => refused
run --steps 0000000 a.hm => refused
run --steps  a.hm => refused
run --steps =3 a.hm => refused
run --steps 3 4 a.hm => run steps=3 4 a.hm
run --steps -- a.hm => refused
run --steps 9999999 a.hm => refused
run --steps 4294967297 a.hm => refused
run --steps 3x a.hm => refused
run --steps x a.hm => refused
run --steps +3 a.hm => refused
run --steps -3 a.hm => refused
run --steps=-3 a.hm => refused
run --steps=+3 a.hm => refused
run --steps=3.0 a.hm => refused
run --steps= a.hm => refused
run --steps - a.hm => refused
run a.hm --steps => refused
run --steps a.hm => refused
run --steps 3 --steps 3 a.hm => refused
run --steps=3 a.hm --steps=4 => refused
run --steps 3 a.hm --steps=3 => refused
run --step 3 a.hm => refused
run --Steps 3 a.hm => refused
run -steps 3 a.hm => refused
run --steps --summary a.hm => refused
run --steps --processes 3 a.hm => refused
run --processes 1 a.hm => run processes=1 a.hm
run --processes=1024 a.hm => run processes=1024 a.hm
run a.hm --processes 3 => run processes=3 a.hm
run a.hm --processes=3 b.hm => run processes=3 a.hm b.hm
run a.hm --processes 3 b.hm => run processes=3 a.hm b.hm
run --processes 0001024 a.hm => run processes=1024 a.hm
run --processes 00000064 a.hm => refused
run --processes=1025 a.hm => refused
run --processes=0 a.hm => refused
run --processes -1 a.hm => refused
run --processes  a.hm => refused
run a.hm --processes 1025 => refused
run --processes 0 a.hm => refused
run --processes 64 a.hm => run a.hm
run --processes= a.hm => refused
run --processes 2 --processes 2 a.hm => refused
run --processes=2 a.hm --processes=2 => refused
run --process 2 a.hm => refused
run a.hm --processes => refused
run --ports 1 a.hm => run ports=1 a.hm
run --ports=16384 a.hm => run ports=16384 a.hm
run a.hm --ports 2 => run ports=2 a.hm
run a.hm --ports=2 b.hm => run ports=2 a.hm b.hm
run a.hm --ports 2 b.hm => run ports=2 a.hm b.hm
run --ports 0016384 a.hm => run ports=16384 a.hm
run --ports 00001024 a.hm => refused
run --ports=16385 a.hm => refused
run --ports=0 a.hm => refused
run --ports x a.hm => refused
run --ports  a.hm => refused
run a.hm --ports 16385 => refused
run --ports 0 a.hm => refused
run --ports 1024 a.hm => run a.hm
run --ports= a.hm => refused
run --ports 2 a.hm --ports 2 => refused
run --ports=2 --ports=2 a.hm => refused
run --port 2 a.hm => refused
run a.hm --ports => refused
run --workers 1 a.hm => run a.hm
run a.hm --workers=1 => run a.hm
run a.hm --workers 1 => run a.hm
run a.hm --workers 1 b.hm => run a.hm b.hm
run a.hm --workers=1 b.hm => run a.hm b.hm
run --workers 0000001 a.hm => run a.hm
run --workers 00000001 a.hm => refused
run --workers=2 a.hm => refused
run --workers=0 a.hm => refused
run --workers 17 a.hm => refused
run --workers  a.hm => refused
run --workers 2 a.hm => refused
run --workers 16 a.hm => refused
run --workers 0 a.hm => refused
run --workers= a.hm => refused
run --workers 1 --workers 1 a.hm => refused
run --workers=1 a.hm --workers=1 => refused
run --worker 1 a.hm => refused
run a.hm --workers => refused
run --arg hello a.hm => run arg=[hello] a.hm
run a.hm --arg hello => run arg=[hello] a.hm
run a.hm --arg=hello b.hm => run arg=[hello] a.hm b.hm
run a.hm --arg hello b.hm => run arg=[hello] a.hm b.hm
run --arg run a.hm => run arg=[run] a.hm
run --arg a.hm a.hm => run arg=[a.hm] a.hm
run --arg a.hm => refused
run --arg -- a.hm => refused
run --arg --summary a.hm => refused
run --arg=--summary a.hm => run arg=[--summary] a.hm
run --arg=-- a.hm => run arg=[--] a.hm
run --arg=- a.hm => run arg=[-] a.hm
run --arg= a.hm => run a.hm
run --arg  a.hm => run a.hm
run --arg - a.hm => run arg=[-] a.hm
run --arg -x a.hm => refused
run --arg=-x a.hm => run arg=[-x] a.hm
run --arg=--x a.hm => run arg=[--x] a.hm
run --arg=a=b a.hm => run arg=[a=b] a.hm
run --arg == a.hm => run arg=[==] a.hm
run --arg !~ a.hm => run arg=[!~] a.hm
run --arg grüße a.hm => refused
run --arg x --arg x a.hm => refused
run --arg x a.hm --arg= => refused
run --arg= --arg= a.hm => refused
run a.hm --arg => refused
run --ar x a.hm => refused
run --make 3 => ring 3
run --make=3 => ring 3
run --make 1 => ring 1
run --make 1000 => ring 1000
run --make 1001 => refused
run --make 0 => refused
run --make= => refused
run --make=1001 => refused
run --make=0 => refused
run --make 0001000 => ring 1000
run --make 00000003 => refused
run --make -3 => refused
run --make=-3 => refused
run --make x => refused
run --make - => refused
run --make -- => refused
run --make  => refused
run --make a.hm => refused
run --make => refused
run --make 3 a.hm => refused
run --make 3 3 => refused
run --make 3 - => refused
run --make 3  => refused
run a.hm --make 3 b.hm => refused
run a.hm --make 3 => refused
run --make 3 -- => ring 3
run --make 3 -- a.hm => refused
run --make 3 --make 3 => refused
run --make=3 --make=3 => refused
run --make 3 --summary --journal => refused
run --make 3 --steps 0 => refused
run --make 3 --workers 1 --arg= => ring 3
run --summary --make 3 => ring summary 3
run --make 3 --journal => ring journal 3
run --steps 7 --make 3 --ports 9 => ring ports=9 steps=7 3
run --processes 5 --make 3 --arg hi => ring processes=5 arg=[hi] 3
run --mak 3 => refused
run a.hm a.hm => refused
run a.hm b.hm a.hm => refused
run a.hm b.hm c.hm b.hm => refused
run a.hm -- b.hm a.hm => refused
run a.hm --steps 3 a.hm => refused
run a.hm -- a.hm => refused
run a.hm A.hm => run a.hm A.hm
run a.hm ./a.hm => run a.hm ./a.hm
run - => run -
run - - => refused
run a.hm - => run a.hm -
run - a.hm - => refused
run -- - => run -
run -- - - => refused
run  => run 
run   => refused
run a.hm  => run a.hm 
run  a.hm  => refused
run --  => run 
run -- => refused
run -- a.hm => run a.hm
run a.hm -- => run a.hm
run -- --summary => run --summary
run -- --steps 3 => run --steps 3
run -- --arg x => run --arg x
run -- --make 3 => run --make 3
run --make 3 -- --make => refused
run --summary -- --summary => run summary --summary
run -- -x -h => run -x -h
run -- -- => run --
run -- -- a.hm => run -- a.hm
run a.hm -- b.hm --steps=3 => run a.hm b.hm --steps=3
run -x a.hm => refused
run -s a.hm => refused
run --- a.hm => refused
run --= a.hm => refused
run --=3 a.hm => refused
run -=3 a.hm => refused
run --a.hm => refused
run --live a.hm => refused
run --unknown a.hm => refused
run --unknown=3 a.hm => refused
run a.hm -h => refused
run -h => refused
run --help => refused
run a.hm --help => refused
run -V => refused
run --version a.hm => refused
run help => run help
run run => run run
run check => run check
run make 3 => run make 3
run a.hm help => run a.hm help
run --steps 7 --processes 6 --ports 5 --arg x --summary a.hm => run processes=6 ports=5 steps=7 arg=[x] summary a.hm
check a.hm => check a.hm
check a.hm b.hm => check a.hm b.hm
check b.hm a.hm => check b.hm a.hm
check c.hm b.hm a.hm => check c.hm b.hm a.hm
check => refused
check -- => refused
check -- a.hm => check a.hm
check -- a.hm b.hm => check a.hm b.hm
check -- a.hm a.hm => refused
check -- -- => check --
check -- -a.hm => check -a.hm
check -a.hm => refused
check a.hm -- b.hm => check a.hm b.hm
check -- --summary => check --summary
check a.hm a.hm => refused
check a.hm b.hm b.hm => refused
check a.hm -- a.hm => refused
check - => check -
check - - => refused
check a.hm - => check a.hm -
check  => check 
check   => refused
check --summary a.hm => refused
check --journal a.hm => refused
check --steps 3 a.hm => refused
check --workers 1 a.hm => refused
check --processes 3 a.hm => refused
check --ports 3 a.hm => refused
check a.hm --summary => refused
check a.hm --journal => refused
check a.hm --arg x => refused
check --make 3 => refused
check -h => refused
check --help => refused
check a.hm --version => refused
check help => check help
check run => check run
check make 3 => check make 3
make 1 => make 1
make 64 => make 64
make 1000 => make 1000
make 0000064 => make 64
make 0001000 => make 1000
make 0000000 => refused
make 9999999 => refused
make 00000064 => refused
make 0 => refused
make 1001 => refused
make => refused
make 3 4 => refused
make 3 3 => refused
make x => refused
make 1e3 => refused
make help => refused
make -3 => refused
make +3 => refused
make - => refused
make  => refused
make -- 3 => make 3
make 3 -- => make 3
make -- 3 4 => refused
make --make 3 => refused
make 3 --summary => refused
make 3 --journal => refused
make --steps 3 4 => refused
make 3 a.hm => refused
make 3  => refused
make -- => refused
make -- -3 => refused
make a.hm => refused
make -h => refused
make --help => refused
 => refused
-- => refused
- => refused
help => refused
help run => refused
help help => refused
--help => refused
-h => refused
--version => refused
-V => refused
version => refused
a.hm => refused
--summary run a.hm => refused
--steps 3 run a.hm => refused
--journal run a.hm => refused
--workers=1 run a.hm => refused
--arg x run a.hm => refused
--make 3 => refused
--make 3 run => refused
 run a.hm => refused
-- run a.hm => refused
-- check a.hm => refused
-- make 3 => refused
hermes run a.hm => refused
ru a.hm => refused
Run a.hm => refused
runs a.hm => refused
--run a.hm => refused
run=a.hm => refused
make3 => refused
mak 3 => refused
chec a.hm => refused
";

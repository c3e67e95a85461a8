// Jobs, and what reading answers. A job's lines are parted by `;` here and begin with the version, the density
// and the length; behind a `2:` the version is 2, and behind a `!` they begin with none of these.
pub(crate) const JOBS: &str = "\
accepted|\n\
accepted|[[item]];name = 'a';mass = 1;x = 2;z = 3;[[opening]];name = 'a';y = 1;z = 2;[[compartment]];name = 'a';from = 0;to = 10;permeability = 1;[[compartment]];name = 'b';from = 10;to = 20;permeability = 1000;[[damage]];name = 'a';flooded = ['a'];[floodable];centres = [1];step = 2;permeability = 3;\n\
accepted|!version = 1;density = 500;length_bp = 1;\n\
accepted|!version = 1;density = 2000;length_bp = 524287;\n\
accepted|margin = 76;\n\
accepted|margin = 10000;\n\
accepted|drafts = [0, 131071];displacements = [1, 68719476736];\n\
accepted|drafts = [];\n\
accepted|[[item]];name = 'a';mass = 0;x = 524287;z = 0;free_surface = 68719476736;\n\
accepted|[[item]];name = 'a';mass = 68719476736;x = 2;z = 131071;\n\
accepted|[[opening]];name = 'a';y = 65535;z = 131071;\n\
accepted|[[compartment]];name = 'a';from = 0;to = 524287;permeability = 1;\n\
accepted|[[compartment]];name = 'a';from = 524286;to = 524287;permeability = 1;\n\
accepted|[[compartment]];name = 'a';from = 0;to = 10;permeability = 1;[[damage]];name = 'none';flooded = [];\n\
accepted|[floodable];centres = [0, 524287];step = 100000;permeability = 3;\n\
accepted|[floodable];centres = [];step = 2;permeability = 3;\n\
accepted|drafts = [0,0,0,0,0,0,0,0,0,0,0,0,0,0,0,0,0,0,0,0,0,0,0,0,0,0,0,0,0,0,0,0,0,0,0,0,0,0,0,0,0,0,0,0,0,0,0,0,0,0,0,0,0,0,0,0,0,0,0,0,0,0,0,0];\n\
accepted|displacements = [1,1,1,1,1,1,1,1,1,1,1,1,1,1,1,1];\n\
accepted|[[item]];name = 'aZ09_-.aZ09_-.aZ09_-.aZ09_-.abcd';mass = 1;x = 2;z = 3;\n\
text|!version = 1;density\n\
text|!version = 1;version = 1;\n\
text|!version = 1;density = 99999999999999999999;length_bp = 100000;\n\
unknown top 0|densty = 1;\n\
unknown top 0|!densty = 1;version = 2;\n\
unknown top 0|[items];\n\
unknown top 0|'' = 1;\n\
missing version 0|!density = 1025;length_bp = 100000;\n\
kind version 0|!version = '1';density = 1025;length_bp = 100000;\n\
kind version 0|!version = 1.0;density = 1025;length_bp = 100000;\n\
version|!version = 3;density = 1025;length_bp = 100000;\n\
version|!version = 0;density = 1025;length_bp = 100000;\n\
version|!version = -1;density = 1025;length_bp = 100000;\n\
missing density 0|!version = 1;length_bp = 100000;\n\
kind density 0|!version = 1;density = '5';length_bp = 100000;\n\
range density 0|!version = 1;density = 499;length_bp = 100000;\n\
range density 0|!version = 1;density = 2001;length_bp = 100000;\n\
range density 0|!version = 1;density = -5;length_bp = 100000;\n\
missing length_bp 0|!version = 1;density = 1025;\n\
kind length_bp 0|!version = 1;density = 1025;length_bp = '5';\n\
range length_bp 0|!version = 1;density = 1025;length_bp = 0;\n\
range length_bp 0|!version = 1;density = 1025;length_bp = 524288;\n\
range length_bp 0|!version = 1;density = 1025;length_bp = -5;\n\
missing density 0|!version = 1;length_bp = 0;\n\
range margin 0|margin = 75;\n\
range margin 0|margin = 10001;\n\
kind margin 0|margin = 76.5;\n\
kind drafts 0|drafts = 5;\n\
kind drafts 0|drafts = [5, true];\n\
range drafts 0|drafts = [-1];\n\
range drafts 0|drafts = [131072];\n\
many drafts 0|drafts = [0,0,0,0,0,0,0,0,0,0,0,0,0,0,0,0,0,0,0,0,0,0,0,0,0,0,0,0,0,0,0,0,0,0,0,0,0,0,0,0,0,0,0,0,0,0,0,0,0,0,0,0,0,0,0,0,0,0,0,0,0,0,0,0,0];\n\
kind drafts 0|drafts = ['x','x','x','x','x','x','x','x','x','x','x','x','x','x','x','x','x','x','x','x','x','x','x','x','x','x','x','x','x','x','x','x','x','x','x','x','x','x','x','x','x','x','x','x','x','x','x','x','x','x','x','x','x','x','x','x','x','x','x','x','x','x','x','x','x'];\n\
many drafts 0|drafts = [131072,131072,131072,131072,131072,131072,131072,131072,131072,131072,131072,131072,131072,131072,131072,131072,131072,131072,131072,131072,131072,131072,131072,131072,131072,131072,131072,131072,131072,131072,131072,131072,131072,131072,131072,131072,131072,131072,131072,131072,131072,131072,131072,131072,131072,131072,131072,131072,131072,131072,131072,131072,131072,131072,131072,131072,131072,131072,131072,131072,131072,131072,131072,131072,131072];\n\
kind displacements 0|displacements = 5;\n\
kind displacements 0|displacements = [5, true];\n\
range displacements 0|displacements = [0];\n\
range displacements 0|displacements = [68719476737];\n\
many displacements 0|displacements = [1,1,1,1,1,1,1,1,1,1,1,1,1,1,1,1,1];\n\
kind displacements 0|displacements = ['x','x','x','x','x','x','x','x','x','x','x','x','x','x','x','x','x'];\n\
many displacements 0|displacements = [68719476737,68719476737,68719476737,68719476737,68719476737,68719476737,68719476737,68719476737,68719476737,68719476737,68719476737,68719476737,68719476737,68719476737,68719476737,68719476737,68719476737];\n\
kind item 0|item = 5;\n\
kind item 0|item = [5];\n\
kind item 0|item = [{}, 5];\n\
kind item 0|[item];\n\
many item 0|item = [{},{},{},{},{},{},{},{},{},{},{},{},{},{},{},{},{},{},{},{},{},{},{},{},{},{},{},{},{},{},{},{},{},{},{},{},{},{},{},{},{},{},{},{},{},{},{},{},{},{},{},{},{},{},{},{},{},{},{},{},{},{},{},{},{},{},{},{},{},{},{},{},{},{},{},{},{},{},{},{},{},{},{},{},{},{},{},{},{},{},{},{},{},{},{},{},{},{},{},{},{},{},{},{},{},{},{},{},{},{},{},{},{},{},{},{},{},{},{},{},{},{},{},{},{},{},{},{},{},{},{},{},{},{},{},{},{},{},{},{},{},{},{},{},{},{},{},{},{},{},{},{},{},{},{},{},{},{},{},{},{},{},{},{},{},{},{},{},{},{},{},{},{},{},{},{},{},{},{},{},{},{},{},{},{},{},{},{},{},{},{},{},{},{},{},{},{},{},{},{},{},{},{},{},{},{},{},{},{},{},{},{},{},{},{},{},{},{},{},{},{},{},{},{},{},{},{},{},{},{},{},{},{},{},{},{},{},{},{},{},{},{},{},{},{},{},{},{},{},{},{},{},{},{},{},{},{}];\n\
unknown item 1|[[item]];name = 'a';mass = 1;x = 2;z = 3;size = 1;\n\
missing item.name 1|[[item]];mass = 1;x = 2;z = 3;\n\
kind item.name 1|[[item]];name = 5;mass = 1;x = 2;z = 3;\n\
name item.name 1|[[item]];name = '';mass = 1;x = 2;z = 3;\n\
name item.name 1|[[item]];name = 'a b';mass = 1;x = 2;z = 3;\n\
name item.name 1|[[item]];name = 'aaaaaaaaaaaaaaaaaaaaaaaaaaaaaaaaa';mass = 1;x = 2;z = 3;\n\
name item.name 1|[[item]];name = 'a,b';mass = 1;x = 2;z = 3;\n\
name item.name 1|[[item]];name = 'a/b';mass = 1;x = 2;z = 3;\n\
name item.name 1|[[item]];name = 'é';mass = 1;x = 2;z = 3;\n\
missing item.name 2|[[item]];name = 'a';mass = 1;x = 2;z = 3;[[item]];\n\
twice item.name 2|[[item]];name = 'a';mass = 1;x = 2;z = 3;[[item]];name = 'a';mass = 1;x = 2;z = 3;\n\
kind opening 0|opening = 5;\n\
kind opening 0|opening = [5];\n\
kind opening 0|opening = [{}, 5];\n\
kind opening 0|[opening];\n\
many opening 0|opening = [{},{},{},{},{},{},{},{},{},{},{},{},{},{},{},{},{},{},{},{},{},{},{},{},{},{},{},{},{},{},{},{},{},{},{},{},{},{},{},{},{},{},{},{},{},{},{},{},{},{},{},{},{},{},{},{},{},{},{},{},{},{},{},{},{}];\n\
unknown opening 1|[[opening]];name = 'a';y = 1;z = 2;size = 1;\n\
missing opening.name 1|[[opening]];y = 1;z = 2;\n\
kind opening.name 1|[[opening]];name = 5;y = 1;z = 2;\n\
name opening.name 1|[[opening]];name = '';y = 1;z = 2;\n\
name opening.name 1|[[opening]];name = 'a b';y = 1;z = 2;\n\
name opening.name 1|[[opening]];name = 'aaaaaaaaaaaaaaaaaaaaaaaaaaaaaaaaa';y = 1;z = 2;\n\
name opening.name 1|[[opening]];name = 'a,b';y = 1;z = 2;\n\
name opening.name 1|[[opening]];name = 'a/b';y = 1;z = 2;\n\
name opening.name 1|[[opening]];name = 'é';y = 1;z = 2;\n\
missing opening.name 2|[[opening]];name = 'a';y = 1;z = 2;[[opening]];\n\
twice opening.name 2|[[opening]];name = 'a';y = 1;z = 2;[[opening]];name = 'a';y = 1;z = 2;\n\
kind compartment 0|compartment = 5;\n\
kind compartment 0|compartment = [5];\n\
kind compartment 0|compartment = [{}, 5];\n\
kind compartment 0|[compartment];\n\
many compartment 0|compartment = [{},{},{},{},{},{},{},{},{},{},{},{},{},{},{},{},{},{},{},{},{},{},{},{},{},{},{},{},{},{},{},{},{},{},{},{},{},{},{},{},{},{},{},{},{},{},{},{},{},{},{},{},{},{},{},{},{},{},{},{},{},{},{},{},{}];\n\
unknown compartment 1|[[compartment]];name = 'a';from = 0;to = 10;permeability = 1;size = 1;\n\
missing compartment.name 1|[[compartment]];from = 0;to = 10;permeability = 1;\n\
kind compartment.name 1|[[compartment]];name = 5;from = 0;to = 10;permeability = 1;\n\
name compartment.name 1|[[compartment]];name = '';from = 0;to = 10;permeability = 1;\n\
name compartment.name 1|[[compartment]];name = 'a b';from = 0;to = 10;permeability = 1;\n\
name compartment.name 1|[[compartment]];name = 'aaaaaaaaaaaaaaaaaaaaaaaaaaaaaaaaa';from = 0;to = 10;permeability = 1;\n\
name compartment.name 1|[[compartment]];name = 'a,b';from = 0;to = 10;permeability = 1;\n\
name compartment.name 1|[[compartment]];name = 'a/b';from = 0;to = 10;permeability = 1;\n\
name compartment.name 1|[[compartment]];name = 'é';from = 0;to = 10;permeability = 1;\n\
missing compartment.name 2|[[compartment]];name = 'a';from = 0;to = 10;permeability = 1;[[compartment]];\n\
twice compartment.name 2|[[compartment]];name = 'a';from = 0;to = 10;permeability = 1;[[compartment]];name = 'a';from = 0;to = 10;permeability = 1;\n\
kind damage 0|damage = 5;\n\
kind damage 0|damage = [5];\n\
kind damage 0|damage = [{}, 5];\n\
kind damage 0|[damage];\n\
many damage 0|damage = [{},{},{},{},{},{},{},{},{},{},{},{},{},{},{},{},{},{},{},{},{},{},{},{},{},{},{},{},{},{},{},{},{}];\n\
unknown damage 1|[[damage]];name = 'a';flooded = ['a'];size = 1;\n\
missing damage.name 1|[[damage]];flooded = ['a'];\n\
kind damage.name 1|[[damage]];name = 5;flooded = ['a'];\n\
name damage.name 1|[[damage]];name = '';flooded = ['a'];\n\
name damage.name 1|[[damage]];name = 'a b';flooded = ['a'];\n\
name damage.name 1|[[damage]];name = 'aaaaaaaaaaaaaaaaaaaaaaaaaaaaaaaaa';flooded = ['a'];\n\
name damage.name 1|[[damage]];name = 'a,b';flooded = ['a'];\n\
name damage.name 1|[[damage]];name = 'a/b';flooded = ['a'];\n\
name damage.name 1|[[damage]];name = 'é';flooded = ['a'];\n\
missing damage.name 2|[[damage]];name = 'a';flooded = ['a'];[[damage]];\n\
twice damage.name 2|[[damage]];name = 'a';flooded = ['a'];[[damage]];name = 'a';flooded = ['a'];\n\
missing item.mass 1|[[item]];name = 'a';x = 2;z = 3;\n\
kind item.mass 1|[[item]];name = 'a';mass = '1';x = 2;z = 3;\n\
range item.mass 1|[[item]];name = 'a';mass = -1;x = 2;z = 3;\n\
range item.mass 1|[[item]];name = 'a';mass = 68719476737;x = 2;z = 3;\n\
missing item.x 1|[[item]];name = 'a';mass = 1;z = 3;\n\
kind item.x 1|[[item]];name = 'a';mass = 1;x = '1';z = 3;\n\
range item.x 1|[[item]];name = 'a';mass = 1;x = -1;z = 3;\n\
range item.x 1|[[item]];name = 'a';mass = 1;x = 524288;z = 3;\n\
missing item.z 1|[[item]];name = 'a';mass = 1;x = 2;\n\
kind item.z 1|[[item]];name = 'a';mass = 1;x = 2;z = '1';\n\
range item.z 1|[[item]];name = 'a';mass = 1;x = 2;z = -1;\n\
range item.z 1|[[item]];name = 'a';mass = 1;x = 2;z = 131072;\n\
missing opening.y 1|[[opening]];name = 'a';z = 2;\n\
kind opening.y 1|[[opening]];name = 'a';y = '1';z = 2;\n\
range opening.y 1|[[opening]];name = 'a';y = -1;z = 2;\n\
range opening.y 1|[[opening]];name = 'a';y = 65536;z = 2;\n\
missing opening.z 1|[[opening]];name = 'a';y = 1;\n\
kind opening.z 1|[[opening]];name = 'a';y = 1;z = '1';\n\
range opening.z 1|[[opening]];name = 'a';y = 1;z = -1;\n\
range opening.z 1|[[opening]];name = 'a';y = 1;z = 131072;\n\
missing compartment.from 1|[[compartment]];name = 'a';to = 10;permeability = 1;\n\
kind compartment.from 1|[[compartment]];name = 'a';from = '1';to = 10;permeability = 1;\n\
range compartment.from 1|[[compartment]];name = 'a';from = -1;to = 10;permeability = 1;\n\
range compartment.from 1|[[compartment]];name = 'a';from = 524287;to = 10;permeability = 1;\n\
missing compartment.to 1|[[compartment]];name = 'a';from = 0;permeability = 1;\n\
kind compartment.to 1|[[compartment]];name = 'a';from = 0;to = '1';permeability = 1;\n\
range compartment.to 1|[[compartment]];name = 'a';from = 0;to = 0;permeability = 1;\n\
range compartment.to 1|[[compartment]];name = 'a';from = 0;to = 524288;permeability = 1;\n\
missing compartment.permeability 1|[[compartment]];name = 'a';from = 0;to = 10;\n\
kind compartment.permeability 1|[[compartment]];name = 'a';from = 0;to = 10;permeability = '1';\n\
range compartment.permeability 1|[[compartment]];name = 'a';from = 0;to = 10;permeability = -1;\n\
range compartment.permeability 1|[[compartment]];name = 'a';from = 0;to = 10;permeability = 1001;\n\
range item.free_surface 1|[[item]];name = 'a';mass = 1;x = 2;z = 3;free_surface = -1;\n\
range item.free_surface 1|[[item]];name = 'a';mass = 1;x = 2;z = 3;free_surface = 68719476737;\n\
kind item.free_surface 1|[[item]];name = 'a';mass = 1;x = 2;z = 3;free_surface = [];\n\
range compartment.to 1|[[compartment]];name = 'a';from = 10;to = 10;permeability = 1;\n\
range compartment.to 1|[[compartment]];name = 'a';from = 11;to = 10;permeability = 1;\n\
range compartment.to 1|[[compartment]];name = 'b';from = 10;to = 9;permeability = 1000;\n\
missing damage.flooded 1|[[damage]];name = 'a';\n\
kind damage.flooded 1|[[compartment]];name = 'a';from = 0;to = 10;permeability = 1;[[damage]];name = 'a';flooded = 'a';\n\
kind damage.flooded 1|[[compartment]];name = 'a';from = 0;to = 10;permeability = 1;[[damage]];name = 'a';flooded = ['a', 5];\n\
name damage.flooded 1|[[compartment]];name = 'a';from = 0;to = 10;permeability = 1;[[damage]];name = 'a';flooded = ['a b'];\n\
many damage.flooded 1|[[compartment]];name = 'a';from = 0;to = 10;permeability = 1;[[damage]];name = 'a';flooded = ['a','a','a','a','a','a','a','a','a','a','a','a','a','a','a','a','a','a','a','a','a','a','a','a','a','a','a','a','a','a','a','a','a','a','a','a','a','a','a','a','a','a','a','a','a','a','a','a','a','a','a','a','a','a','a','a','a','a','a','a','a','a','a','a','a'];\n\
twice damage.flooded 1|[[compartment]];name = 'a';from = 0;to = 10;permeability = 1;[[damage]];name = 'a';flooded = ['a','a','a','a','a','a','a','a','a','a','a','a','a','a','a','a','a','a','a','a','a','a','a','a','a','a','a','a','a','a','a','a','a','a','a','a','a','a','a','a','a','a','a','a','a','a','a','a','a','a','a','a','a','a','a','a','a','a','a','a','a','a','a','a'];\n\
kind floodable 0|floodable = 5;\n\
kind floodable 0|[[floodable]];\n\
unknown floodable 0|[floodable];centres = [1];step = 2;permeability = 3;length = 1;\n\
missing floodable.centres 0|[floodable];step = 2;permeability = 3;\n\
kind floodable.centres 0|[floodable];centres = '1';step = 2;permeability = 3;\n\
missing floodable.step 0|[floodable];centres = [1];permeability = 3;\n\
kind floodable.step 0|[floodable];centres = [1];step = '1';permeability = 3;\n\
missing floodable.permeability 0|[floodable];centres = [1];step = 2;\n\
kind floodable.permeability 0|[floodable];centres = [1];step = 2;permeability = '1';\n\
kind floodable.centres 0|[floodable];centres = [true];step = 2;permeability = 3;\n\
range floodable.centres 0|[floodable];centres = [524288];step = 2;permeability = 3;\n\
range floodable.centres 0|[floodable];centres = [-1];step = 2;permeability = 3;\n\
many floodable.centres 0|[floodable];centres = [1,1,1,1,1,1,1,1,1,1,1,1,1,1,1,1,1,1,1,1,1,1,1,1,1,1,1,1,1,1,1,1,1];step = 2;permeability = 3;\n\
range floodable.step 0|[floodable];centres = [1];step = 0;permeability = 3;\n\
range floodable.step 0|[floodable];centres = [1];step = 3;permeability = 3;\n\
range floodable.step 0|[floodable];centres = [1];step = 100002;permeability = 3;\n\
range floodable.step 0|[floodable];centres = [1];step = -2;permeability = 3;\n\
range floodable.permeability 0|[floodable];centres = [1];step = 2;permeability = 1001;\n\
range floodable.step 0|[floodable];centres = [1];step = 3;permeability = 1001;\n\
unknown item 1|[[item]];name = 'a';mass = -1;x = 2;z = 3;size = 1;\n\
range item.mass 1|[[item]];name = 'a';mass = -1;x = 2;\n\
kind item.mass 1|[[item]];name = 'a';mass = '1';x = 2;z = 3;[[opening]];name = 'a';y = -1;z = 2;\n\
range density 0|!version = 1;density = 1;length_bp = 100000;margin = 1;\n\
range drafts 0|drafts = [-1];[[item]];name = 'a';mass = 1;x = -1;z = 3;\n\
range opening.z 1|[[item]];name = 'a';mass = 1;x = 2;z = 3;[[item]];name = 'a';mass = 1;x = 2;z = 3;[[opening]];name = 'a';y = 1;z = -1;\n\
range floodable.step 0|[floodable];centres = [1];step = 3;permeability = 3;[[item]];name = 'a';mass = 1;x = 2;z = 3;[[item]];name = 'a';mass = 1;x = 2;z = 3;\n\
twice item.name 2|[[item]];name = 'a';mass = 1;x = 2;z = 3;[[item]];name = 'a';mass = 1;x = 2;z = 3;[[opening]];name = 'a';y = 1;z = 2;[[opening]];name = 'a';y = 1;z = 2;\n\
twice opening.name 2|[[opening]];name = 'a';y = 1;z = 2;[[opening]];name = 'a';y = 1;z = 2;[[compartment]];name = 'a';from = 0;to = 10;permeability = 1;[[compartment]];name = 'a';from = 0;to = 10;permeability = 1;\n\
twice compartment.name 2|[[compartment]];name = 'a';from = 0;to = 10;permeability = 1;[[compartment]];name = 'a';from = 0;to = 10;permeability = 1;[[damage]];name = 'a';flooded = ['a'];[[damage]];name = 'a';flooded = ['a'];\n\
twice damage.name 2|[[compartment]];name = 'a';from = 0;to = 10;permeability = 1;[[damage]];name = 'a';flooded = ['a'];[[damage]];name = 'a';flooded = ['a'];[[damage]];name = 'z';flooded = ['a'];\n\
twice item.name 3|[[item]];name = 'a';mass = 1;x = 2;z = 3;[[item]];name = 'b';mass = 1;x = 2;z = 3;[[item]];name = 'a';mass = 1;x = 2;z = 3;\n\
accepted|[[item]];name = 'a';mass = 1;x = 2;z = 3;[[opening]];name = 'a';y = 1;z = 2;[[compartment]];name = 'a';from = 0;to = 10;permeability = 1;[[damage]];name = 'a';flooded = ['a'];\n\
notnamed 1|[[compartment]];name = 'a';from = 0;to = 10;permeability = 1;[[damage]];name = 'a';flooded = ['b'];\n\
notnamed 2|[[compartment]];name = 'a';from = 0;to = 10;permeability = 1;[[damage]];name = 'a';flooded = ['a'];[[damage]];name = 'b';flooded = ['a', 'b'];\n\
twice damage.flooded 1|[[compartment]];name = 'a';from = 0;to = 10;permeability = 1;[[damage]];name = 'a';flooded = ['a', 'a'];\n\
twice damage.flooded 1|[[compartment]];name = 'a';from = 0;to = 10;permeability = 1;[[damage]];name = 'a';flooded = ['a', 'a', 'b'];\n\
notnamed 1|[[compartment]];name = 'a';from = 0;to = 10;permeability = 1;[[damage]];name = 'a';flooded = ['b', 'a', 'a'];\n\
twice damage.name 2|[[damage]];name = 'a';flooded = ['b'];[[damage]];name = 'a';flooded = ['a'];\n\
overlap 1 2|[[compartment]];name = 'p';from = 0;to = 10;permeability = 0;[[compartment]];name = 'q';from = 5;to = 20;permeability = 0;\n\
accepted|[[compartment]];name = 'p';from = 0;to = 10;permeability = 0;[[compartment]];name = 'q';from = 10;to = 20;permeability = 0;\n\
overlap 1 3|[[compartment]];name = 'p';from = 0;to = 10;permeability = 0;[[compartment]];name = 'q';from = 20;to = 30;permeability = 0;[[compartment]];name = 'r';from = 9;to = 21;permeability = 0;\n\
overlap 1 3|[[compartment]];name = 'p';from = 20;to = 30;permeability = 0;[[compartment]];name = 'q';from = 0;to = 10;permeability = 0;[[compartment]];name = 'r';from = 5;to = 25;permeability = 0;\n\
overlap 1 2|[[compartment]];name = 'p';from = 0;to = 30;permeability = 0;[[compartment]];name = 'q';from = 10;to = 20;permeability = 0;\n\
overlap 1 2|[[compartment]];name = 'p';from = 0;to = 10;permeability = 0;[[compartment]];name = 'q';from = 0;to = 10;permeability = 0;[[compartment]];name = 'r';from = 0;to = 10;permeability = 0;\n\
notnamed 1|[[compartment]];name = 'p';from = 0;to = 10;permeability = 0;[[compartment]];name = 'q';from = 5;to = 20;permeability = 0;[[damage]];name = 'a';flooded = ['z'];\n\
twice compartment.name 2|[[compartment]];name = 'p';from = 0;to = 10;permeability = 0;[[compartment]];name = 'p';from = 5;to = 20;permeability = 0;\n\
overlap 4 5|[[compartment]];name = 'p';from = 10;to = 20;permeability = 0;[[compartment]];name = 'q';from = 0;to = 5;permeability = 0;[[compartment]];name = 'r';from = 5;to = 10;permeability = 0;[[compartment]];name = 's';from = 20;to = 30;permeability = 0;[[compartment]];name = 't';from = 29;to = 40;permeability = 0;\n\
accepted|2:\n\
accepted|2:[[item]];name = 'a';mass = 1;x = 2;y = 0;z = 3;\n\
accepted|2:[[item]];name = 'a';mass = 1;x = 2;y = 65535;z = 3;\n\
accepted|2:[[item]];name = 'a';mass = 1;x = 2;y = -65535;z = 3;\n\
accepted|2:[[item]];name = 'a';mass = 1;x = 2;z = 3;\n\
accepted|2:[[item]];y = -5;z = 3;free_surface = 4;x = 2;mass = 1;name = 'a';\n\
accepted|2:[[item]];free_surface = 4;z = 3;x = 2;mass = 1;name = 'a';y = 5;\n\
accepted|2:[[item]];name = 'a';mass = 1;x = 2;y = -5;z = 3;[[opening]];name = 'a';y = 1;z = 2;[[compartment]];name = 'a';from = 0;to = 10;permeability = 1;[[damage]];name = 'a';flooded = ['a'];[floodable];centres = [1];step = 2;permeability = 3;\n\
range item.y 1|2:[[item]];name = 'a';mass = 1;x = 2;y = 65536;z = 3;\n\
range item.y 1|2:[[item]];name = 'a';mass = 1;x = 2;y = -65536;z = 3;\n\
range item.y 1|2:[[item]];name = 'a';mass = 1;x = 2;y = 9223372036854775807;z = 3;\n\
range item.y 1|2:[[item]];name = 'a';mass = 1;x = 2;y = -9223372036854775808;z = 3;\n\
kind item.y 1|2:[[item]];name = 'a';mass = 1;x = 2;y = '1';z = 3;\n\
kind item.y 1|2:[[item]];name = 'a';mass = 1;x = 2;y = 1.0;z = 3;\n\
kind item.y 1|2:[[item]];name = 'a';mass = 1;x = 2;y = true;z = 3;\n\
kind item.y 1|2:[[item]];name = 'a';mass = 1;x = 2;y = [1];z = 3;\n\
range item.y 2|2:[[item]];name = 'a';mass = 1;x = 2;y = 1;z = 3;[[item]];name = 'b';mass = 1;x = 2;y = 65536;z = 3;\n\
range item.x 1|2:[[item]];name = 'a';mass = 1;x = -1;y = 65536;z = 3;\n\
missing item.x 1|2:[[item]];name = 'a';mass = 1;y = 'a';z = 3;\n\
range item.y 1|2:[[item]];name = 'a';mass = 1;x = 2;y = 65536;z = -1;\n\
kind item.y 1|2:[[item]];name = 'a';mass = 1;x = 2;y = 'a';\n\
missing item.z 1|2:[[item]];name = 'a';mass = 1;x = 2;y = 1;\n\
unknown item 1|2:[[item]];name = 'a';mass = 1;x = 2;y = 65536;z = 3;size = 1;\n\
unknown item 1|2:[[item]];name = 'a';mass = 1;x = 2;Y = 1;z = 3;\n\
twice item.name 2|2:[[item]];name = 'a';mass = 1;x = 2;y = 1;z = 3;[[item]];name = 'a';mass = 1;x = 2;y = -1;z = 3;\n\
unknown item 1|[[item]];name = 'a';mass = 1;x = 2;y = 0;z = 3;\n\
unknown item 1|[[item]];name = 'a';mass = 1;x = 2;y = -5;z = 3;\n\
unknown item 1|[[item]];name = 'a';mass = 1;x = 2;y = 'a';z = 3;\n\
unknown item 1|[[item]];y = 1;name = 5;mass = -1;\n\
unknown item 2|[[item]];name = 'a';mass = 1;x = 2;z = 3;[[item]];name = 'b';mass = 1;x = 2;y = 65536;z = 3;\n\
version|!version = 3;density = 1025;length_bp = 100000;[[item]];name = 'a';mass = 1;x = 2;y = 'a';\n\
version|!version = 4294967298;density = 1025;length_bp = 100000;\n\
version|!version = 9223372036854775807;density = 1;length_bp = 100000;\n\
version|!version = -2;density = 1025;length_bp = 100000;\n\
kind version 0|!version = '2';density = 1025;length_bp = 100000;\n\
kind version 0|!version = [2];density = 1025;length_bp = 100000;\n\
missing density 0|!version = 2;length_bp = 100000;\n\
unknown top 0|y = 1;\n\
unknown top 0|2:y = 1;\n\
unknown top 0|!version = 3;y = 1;\n\
unknown compartment 1|2:[[compartment]];name = 'a';from = 0;to = 10;permeability = 1;y = 1;\n\
unknown damage 1|2:[[damage]];name = 'a';flooded = [];y = 1;\n\
unknown floodable 0|2:[floodable];centres = [1];step = 2;permeability = 3;y = 1;\n";
